//! A box as its pointer.
ghost use Rattle.std.specs.Prelude.{◌≡◌};

use std::alloc::Allocator;
use std::marker::Model;

/// A box as its pointer and its allocator, which it owns as the box did.
pub(crate) struct LooseBox<T, A: Allocator> {
    pub(crate) ptr: *mut T,
    pub(crate) alloc: A,
    pub(crate) ghost value: { T },
}

impl<T, A: Allocator> Model for LooseBox<T, A> {
    ghost use Rattle.std.specs.Box.Ownership.{box_owns};

    ghost also_owns = { λ p. box_owns (A.dealloc_token p.alloc) T.row p.ptr p.value };
}

impl<T, A: Allocator> LooseBox<T, A> {
    /// Of a box.
    pub(crate) fn of(b: Box<T, A>) -> LooseBox<T, A>
    where
        T: Drop,
        ensures { result.value ≡ b.value }
    {
        let (ptr, alloc) = Box::into_raw_with_allocator(b);
        LooseBox { ptr, alloc }
    }

    /// The box again.
    pub(crate) fn into_box(self) -> Box<T, A>
        ensures { result.value ≡ self.value }
    {
        let LooseBox { ptr, alloc } = self;
        unsafe { Box::from_raw(alloc, ptr) }
    }
}
