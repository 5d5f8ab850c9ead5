//! Whether an empty map and an empty list are put at a place.
ghost use Rattle.std.specs.Prelude.{◌≡◌, ◌||◌, false};
ghost use Rattle.presence_set.specs.EmptyPut.{puts_map, puts_list};

use doc_api::Role;

/// Whether an empty map and an empty list are put at a place.
#[derive(Clone, Copy, Debug)]
pub struct EmptyPut {
    pub map: bool,
    pub list: bool,
}

impl EmptyPut {
    /// Neither.
    pub fn none() -> EmptyPut
        ensures map { result.map ≡ false }
        ensures list { result.list ≡ false }
    {
        EmptyPut {
            map: false,
            list: false,
        }
    }

    /// What is put with one operation more, of this role.
    pub fn with(self, role: Role) -> EmptyPut
        ensures map { result.map ≡ (puts_map role || self.map) }
        ensures list { result.list ≡ (puts_list role || self.list) }
    {
        match role {
            Role::Map => EmptyPut {
                map: true,
                list: self.list,
            },
            Role::List => EmptyPut {
                map: self.map,
                list: true,
            },
            Role::Through | Role::Scalar | Role::Counter => self,
        }
    }
}
