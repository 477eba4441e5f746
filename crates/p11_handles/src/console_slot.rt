// A console behind a pointer of C's.
ghost use Rattle.std.specs.Prelude.{◌≡◌, None, Some};
ghost use Rattle.p11_handles.specs.HeldConsoles.{HeldDialogue, consoles_of};
ghost use Rattle.p11_handles.specs.ConsoleSlots.{console_slot_owns, dialogue_coded};

use crate::held_console::HeldConsole;
use crate::raw_box::RawBox;
use std::alloc::Global;
use std::marker::Model;
use std::ptr::null_mut;

/// A pointer to a boxed console, which the slot owns, or one to nothing.
#[repr(C)]
#[derive(Drop)]
pub struct ConsoleSlot {
    at: *mut u8,
    alloc: Global,
    pub ghost held: { HeldDialogue } by { dialogue_coded },
}

impl Model for ConsoleSlot {
    ghost also_owns = { λ s. console_slot_owns s.alloc s.at s.held };
}

impl ConsoleSlot {
    /// A slot that holds nothing.
    pub(crate) fn empty(alloc: Global) -> ConsoleSlot
        ensures { result.held ≡ None }
    {
        ConsoleSlot {
            at: null_mut(),
            alloc,
        }
    }

    /// A slot that holds a console, of its box taken apart.
    fn of_raw(raw_box: RawBox<HeldConsole, Global>) -> ConsoleSlot
        ensures { result.held ≡ Some raw_box.value }
    {
        let RawBox { at, alloc } = raw_box;
        ConsoleSlot {
            at: at as *mut u8,
            alloc,
        }
    }

    /// The box of the console that it holds, taken apart.
    fn into_raw(self) -> RawBox<HeldConsole, Global>
        requires { consoles_of self.held ≡ 1 }
        ensures { self.held ≡ Some result.value }
    {
        let ConsoleSlot { at, alloc } = self;
        RawBox {
            at: at as *mut HeldConsole,
            alloc,
        }
    }

    /// A slot that holds a console.
    pub(crate) fn of(console: Box<HeldConsole>) -> ConsoleSlot
        ensures { result.held ≡ Some console.value }
    {
        ConsoleSlot::of_raw(RawBox::of(console))
    }

    /// The console that it holds.
    pub(crate) fn into_box(self) -> Box<HeldConsole>
        requires { consoles_of self.held ≡ 1 }
        ensures { self.held ≡ Some result.value }
    {
        self.into_raw().into_box()
    }
}
