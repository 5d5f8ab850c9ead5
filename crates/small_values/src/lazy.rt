//! A value that is made when it is first needed.
ghost use Rattle.std.specs.Prelude.{◌≡◌, true, None, IsOk, IfOk, is_some, unwrap_or};
ghost use Rattle.std.specs.Option.{option_copied, option_copied_mut, UnwrapsOrElse};
ghost use Rattle.std.specs.Borrow.{sem};
ghost use Rattle.std.specs.declared.alloc.Global.{Global};

use std::alloc::{AllocError, Global};
use std::marker::Model;

/// A value in a box that is made when the value is first needed: until then it is one word. Clauses
/// see the value, if there is one.
pub struct Lazy<T> {
    made: Option<Box<T>>,
    alloc: Global,
}

impl<T> Model for Lazy<T> {
    ghost use Rattle.std.specs.Prelude.{Option, option_map};

    ghost Value = { Option T };

    ghost view = { λ l. option_map (λ b. b.value) l.made };
}

impl<T: Drop> Drop for Lazy<T> {
    fn drop(self) {
        let Lazy { made: _, alloc: _ } = self;
    }
}

impl<T> Lazy<T> {
    ghost use Rattle.small_values.specs.Lends.{lends_made, lends_value};

    /// No value. It takes no memory yet.
    pub fn new(alloc: Global) -> Lazy<T>
        ensures { result ≡ None }
    {
        Lazy { made: None, alloc }
    }

    /// The value, if it is made.
    pub fn get(&self) -> Option<&T>
        ensures { option_copied result ≡ self.now }
    {
        match &self.made {
            None => None,
            Some(value) => Some(value),
        }
    }

    /// The value for writing, if it is made.
    pub fn get_mut(&mut self) -> Option<&mut T>
        ensures* writes_back { sem 𝓛 (lends_made T.row self.entry result) }
        ensures value { option_copied_mut result ≡ self.old }
    {
        match &mut self.made {
            None => None,
            Some(value) => Some(value.as_mut()),
        }
    }

    /// The value for writing, made if there was none. Out of memory, there is still none.
    pub fn get_or_make<F: FnOnce(Global) -> T>(&mut self, make: F) -> Result<&mut T, AllocError>
    where
        T: Drop,
        requires { (alloc : Global) → F.pre make alloc }
        ensures* writes_back { sem 𝓛 (lends_value T.row self.entry result) }
        ensures value { IfOk result
            (λ x. UnwrapsOrElse self.old
            (λ first. (alloc : Global) × F.post make alloc first) x.now) }
        ensures succeeds { is_some self.old ≡ true → IsOk result }
    {
        let alloc = self.alloc;
        let value = self.made.get_or_try_insert_with(
            || -> Result<Box<T>, AllocError>
                requires { F.pre make alloc }
                ensures { IfOk result (λ b. F.post make alloc b.value) }
            { Ok(Box::new(alloc, make(alloc))?) },
        )?;
        Ok(value.as_mut())
    }

    /// The value for writing: the one that is given, if there was none. Out
    /// of memory, there is still none.
    pub fn get_or_put(&mut self, first: T) -> Result<&mut T, AllocError>
    where
        T: Drop,
        ensures* writes_back { sem 𝓛 (lends_value T.row self.entry result) }
        ensures value { IfOk result (λ x. x.now ≡ unwrap_or self.old first) }
        ensures succeeds { is_some self.old ≡ true → IsOk result }
    {
        self.get_or_make(
            |_: Global| -> T
                ensures { result ≡ first }
            { first },
        )
    }

    /// The allocator.
    pub fn allocator(&self) -> Global {
        self.alloc
    }
}
