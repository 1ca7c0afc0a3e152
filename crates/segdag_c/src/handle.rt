//! The handle: a pointer that owns what is held.

ghost use Rattle.std.specs.Prelude.{◌≡◌, Option, Some, None, is_some, true};
ghost use Rattle.segdag_c.specs.declared.held.Held.{Held};
ghost use Rattle.segdag_c.specs.Owned.{handle_owns, held_coded};

use crate::held::Held;
use crate::parts::Parts;
use std::alloc::Global;
use std::marker::Model;
use std::ptr::null_mut;

/// A pointer to what is held, or to nothing.
#[repr(C)]
pub struct Handle {
    at: *mut u8,
    alloc: Global,
    pub ghost held: { Option Held } by { held_coded },
}

impl Model for Handle {
    ghost also_owns = { λ h. handle_owns h.alloc h.at h.held };
}

impl Handle {
    /// One that holds nothing.
    pub fn shut(alloc: Global) -> Handle
        ensures { result.held ≡ None }
    {
        Handle {
            at: null_mut(),
            alloc,
        }
    }

    fn of_parts(parts: Parts<Held, Global>) -> Handle
        ensures { result.held ≡ Some parts.value }
    {
        let Parts { ptr, alloc } = parts;
        Handle {
            at: ptr as *mut u8,
            alloc,
        }
    }

    fn into_parts(self) -> Parts<Held, Global>
        requires { is_some self.held ≡ true }
        ensures { Some result.value ≡ self.held }
    {
        let Handle { at, alloc } = self;
        Parts {
            ptr: at as *mut Held,
            alloc,
        }
    }

    /// Lets one go that holds nothing.
    pub fn forget(self)
        requires { self.held ≡ None }
    {
        let Handle { at: _, alloc: _ } = self;
    }

    /// One that holds this.
    pub fn of(held: Box<Held>) -> Handle
        ensures { result.held ≡ Some held.value }
    {
        Handle::of_parts(Parts::of(held))
    }

    /// What is held.
    pub fn into_box(self) -> Box<Held>
        requires { is_some self.held ≡ true }
        ensures { Some result.value ≡ self.held }
    {
        self.into_parts().into_box()
    }
}
