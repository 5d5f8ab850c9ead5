//! The handle by which a program in C holds a replica.
ghost use Rattle.std.specs.Prelude.{◌≡◌, Option, Some, None, option_map};
ghost use Rattle.replica_c.specs.declared.open.OpenReplica.{OpenReplica};

use crate::loose::LooseBox;
use crate::open::OpenReplica;
use std::alloc::Global;
use std::marker::Model;
use std::ptr;

/// A place for an open replica: it owns one, or none. A contract sees which.
#[repr(C)]
#[derive(Drop)]
pub struct Handle {
    at: *mut (),
    is_open: bool,
    ghost value: { Option OpenReplica },
}

impl Model for Handle {
    ghost use Rattle.libc.specs.Heap.{chunk};
    ghost use Rattle.replica_c.specs.Handles.{handle_owns};
    ghost use Rattle.replica_c.specs.contracts.open.OpenReplica as opened;

    ghost also_owns = { λ h. handle_owns chunk opened.the_row h.is_open h.at h.value };
}

impl Handle {
    /// One that owns no replica.
    pub(crate) fn closed() -> Handle
        ensures { result.value ≡ None }
    {
        Handle {
            at: ptr::null_mut(),
            is_open: false,
        }
    }

    /// One that owns a box's replica.
    pub(crate) fn of(parts: LooseBox<OpenReplica, Global>) -> Handle
        ensures { result.value ≡ Some parts.value }
    {
        let LooseBox { ptr, alloc: _ } = parts;
        Handle {
            at: ptr as *mut (),
            is_open: true,
        }
    }

    /// The box again, if it owns one.
    pub(crate) fn into_parts(self, alloc: Global) -> Option<LooseBox<OpenReplica, Global>>
        ensures { option_map (λ p. p.value) result ≡ self.value }
    {
        let Handle { at, is_open } = self;
        if is_open {
            Some(LooseBox {
                ptr: at as *mut OpenReplica,
                alloc,
            })
        } else {
            None
        }
    }
}
