//! KEY: bytes come to the console line one after another; the room for them, and the program counter.
ghost use Rattle.std.specs.Prelude.{◌≡◌};
ghost use Rattle.p11_cpu.specs.OperatorDevices.{key_of, room_of};
ghost use Rattle.p11_panel.specs.Keys.{pressed};

use crate::panel::Panel;
use std::alloc::Allocator;

impl<A: Allocator> Panel<A> {
    /// How many more keys the machine's keyboard takes.
    pub fn room(&self) -> u32
        ensures { result ≡ room_of self.now }
    {
        self.machine.room()
    }

    /// The program counter.
    pub fn pc(&self) -> u16
        ensures { result ≡ self.now.processor.registers.pc }
    {
        self.machine.regs().pc
    }

    /// Presses a key.
    fn press(&mut self, key: u8)
        ensures { self.new ≡ (key_of key self.old).0 }
    {
        let _ = self.machine.key(key);
    }

    /// Presses keys, one after another. Those that there is no room for are lost, so ask `room` before.
    #[tactic(auto, unfolding(crate::specs::Keys::pressed))]
    pub fn press_all(&mut self, keys: &[u8])
        ensures { self.new ≡ pressed keys.now self.old }
    {
        for key in keys {
            self.press(*key);
        }
    }
}
