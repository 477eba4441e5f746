// A machine behind a pointer of C's.
ghost use Rattle.std.specs.Prelude.{◌≡◌, None, Some};
ghost use Rattle.p11_handles.specs.Held.{Held, machines_of};
ghost use Rattle.p11_handles.specs.Slots.{slot_owns, held_coded};

use crate::held_machine::HeldMachine;
use crate::raw_box::RawBox;
use std::alloc::Global;
use std::marker::Model;
use std::ptr::null_mut;

/// A pointer to a boxed machine, which the slot owns, or one to nothing.
#[repr(C)]
#[derive(Drop)]
pub struct Slot {
    at: *mut u8,
    alloc: Global,
    pub ghost held: { Held } by { held_coded },
}

impl Model for Slot {
    ghost also_owns = { λ s. slot_owns s.alloc s.at s.held };
}

impl Slot {
    /// A slot that holds nothing.
    pub(crate) fn empty(alloc: Global) -> Slot
        ensures { result.held ≡ None }
    {
        Slot {
            at: null_mut(),
            alloc,
        }
    }

    /// A slot that holds a machine, of its box taken apart.
    fn of_raw(raw_box: RawBox<HeldMachine, Global>) -> Slot
        ensures { result.held ≡ Some raw_box.value }
    {
        let RawBox { at, alloc } = raw_box;
        Slot {
            at: at as *mut u8,
            alloc,
        }
    }

    /// The box of the machine that it holds, taken apart.
    fn into_raw(self) -> RawBox<HeldMachine, Global>
        requires { machines_of self.held ≡ 1 }
        ensures { self.held ≡ Some result.value }
    {
        let Slot { at, alloc } = self;
        RawBox {
            at: at as *mut HeldMachine,
            alloc,
        }
    }

    /// A slot that holds a machine.
    pub(crate) fn of(machine: Box<HeldMachine>) -> Slot
        ensures { result.held ≡ Some machine.value }
    {
        Slot::of_raw(RawBox::of(machine))
    }

    /// The machine that it holds.
    pub(crate) fn into_box(self) -> Box<HeldMachine>
        requires { machines_of self.held ≡ 1 }
        ensures { self.held ≡ Some result.value }
    {
        self.into_raw().into_box()
    }
}
