//! Memory as a device reaches it.
ghost use Rattle.std.specs.Prelude.{◌≡◌, ℕ, ◌+◌, ◌/◌, ◌%◌, ◌<◌, ◌≤◌, true, length};
ghost use Rattle.p11_memory.specs.Calls.Runs.{run_at, with_run};
ghost use Rattle.p11_memory.specs.Memory.{Words, has_word, word_at, stored};

/// Words of memory, as a device reaches them: a list, of which word `k` is at address `2 * k`, and room for a
/// number of stores.
pub trait WordMemory {
    /// The words from address 0 on.
    ghost words: { Self → Words };

    /// How many words may be stored yet.
    ghost room: { Self → ℕ };

    /// Whether there is memory at an address.
    fn holds(&self, pa: u32) -> bool
        ensures { result ≡ has_word (words self.now) pa };

    /// The word at an address that is memory.
    fn load(&self, pa: u32) -> u16
        requires { has_word (words self.now) pa ≡ true }
        ensures { result ≡ word_at (words self.now) pa };

    /// Stores a word at an address that is memory. It uses at most one of the room.
    fn store(&mut self, pa: u32, w: u16)
        requires held { has_word (words self.old) pa ≡ true }
        requires free { 0 < room self.old }
        ensures words { words self.new ≡ stored (words self.old) pa w }
        ensures room { room self.old ≤ room self.new + 1 };

    /// So many words from an address on, all of which are memory.
    fn run(&self, pa: u32, count: usize) -> &[u16]
        requires even { pa % 2 ≡ 0 }
        requires held { pa / 2 + count ≤ length (words self.now) }
        ensures { result.now ≡ run_at (words self.now) pa count };

    /// Stores words from an address on, all of which is memory. It uses at most one of the room for each.
    fn store_run(&mut self, pa: u32, run: &[u16])
        requires even { pa % 2 ≡ 0 }
        requires held { pa / 2 + length run.now ≤ length (words self.old) }
        requires free { length run.now ≤ room self.old }
        ensures words { words self.new ≡ with_run (words self.old) pa run.now }
        ensures room { room self.old ≤ room self.new + length run.now };
}
