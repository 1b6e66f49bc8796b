//! A C caller's handle of a machine: a pointer to it, or null.
ghost use Rattle.std.specs.Prelude.{◌≡◌};
ghost use Rattle.kept_machine.specs.Kept.{Kept};
ghost use Rattle.std.specs.Option.{MatchOption};
ghost use Rattle.std.specs.declared.option.Option.{Option};
ghost use Rattle.std.specs.declared.option.Option.TheVariants.{None, Some};
ghost use Rattle.machine_c.specs.Owned.{handle_owns};

use crate::parts::Parts;
use kept_machine::KeptMachine;
use std::alloc::Global;
use std::marker::Model;
use std::mem;
use std::ptr::null_mut;

/// A machine on the heap, or none. C sees one pointer, which is null if there is no machine.
#[repr(C)]
pub struct Handle {
    at: *mut u8,
    alloc: Global,
    pub ghost machine: { Option Kept },
}

impl Model for Handle {
    ghost also_owns = { λ h. handle_owns h.alloc h.at h.machine };
}

impl Handle {
    /// Returns a handle with no machine.
    pub fn empty(alloc: Global) -> Handle
        ensures { result.machine ≡ None }
    {
        Handle {
            at: null_mut(),
            alloc,
        }
    }

    /// Returns the handle with the machine of a box.
    fn of_parts(parts: Parts<KeptMachine, Global>) -> Handle
        ensures { result.machine ≡ Some parts.value }
    {
        let Parts { ptr, alloc } = parts;
        Handle {
            at: ptr as *mut u8,
            alloc,
        }
    }

    /// Returns the box of the machine, if there is one.
    fn into_parts(self) -> Option<Parts<KeptMachine, Global>>
        ensures { MatchOption result (self.machine ≡ None) (λ p. self.machine ≡ Some p.value) }
    {
        let Handle { at, alloc } = self;
        if at.is_null() {
            None
        } else {
            Some(Parts {
                ptr: at as *mut KeptMachine,
                alloc,
            })
        }
    }

    /// Takes the machine out of the handle.
    pub fn take(&mut self, alloc: Global) -> Option<Box<KeptMachine>>
        ensures empty { self.new.machine ≡ None }
        ensures taken { MatchOption result (self.old.machine ≡ None) (λ b. self.old.machine ≡ Some b.value) }
    {
        let held = mem::replace(self, Handle::empty(alloc));
        match held.into_parts() {
            None => None,
            Some(parts) => Some(parts.into_box()),
        }
    }

    /// Puts a machine into the handle. Frees an earlier one.
    pub fn put(&mut self, machine: Box<KeptMachine>)
        ensures { self.new.machine ≡ Some machine.value }
    {
        *self = Handle::of_parts(Parts::of(machine));
    }
}

impl Drop for Handle {
    fn drop(self) {
        if let Some(parts) = self.into_parts() {
            drop(parts.into_box());
        }
    }
}
