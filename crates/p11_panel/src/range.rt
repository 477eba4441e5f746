//! Words from an even bus address on, read for EXAMINE and written for DEPOSIT.
ghost use Rattle.std.specs.Prelude.{◌≡◌, ℕ, ◌≤◌, ◌+◌, ◌*◌, ◌<◌, ◌++◌, ◌∷◌, [], true, length, IfOk, OnErr};
ghost use Rattle.std.specs.Prelude.{vec_len, vec_capacity};
ghost use Rattle.p11_cpu.specs.Operator.{examine_of, deposit_of};
ghost use Rattle.p11_panel.specs.Ranges.{answers_at, all_answer, reads_at, deposited};

use crate::panel::Panel;
use std::alloc::{AllocError, Allocator};

/// One more word of a list that has room for it.
fn push_within<A: Allocator>(words: &mut Vec<u16, A>, word: u16)
    requires { vec_len words.old < vec_capacity words.old }
    ensures items { words.new.items ≡ words.old.items ++ word ∷ [] }
    ensures len { vec_len words.new ≡ vec_len words.old + 1 }
    ensures room { vec_capacity words.old ≤ vec_capacity words.new }
{
    let _ = words.push(word);
}

impl<A: Allocator> Panel<A> {
    /// Reads the word of this number, counted from an even address on.
    #[tactic(auto, unfolding(crate::specs::Ranges::answers_at))]
    fn word_at(&mut self, address: u32, number: u32) -> u16
        requires { answers_at (address + 2 * number) self.old ≡ true }
        ensures state { examine_of (address + 2 * number) self.old ≡ (self.new, result) }
        ensures answers { (a : ℕ) → answers_at a self.new ≡ answers_at a self.old }
    {
        self.machine.examine(address + 2 * number)
    }

    /// Writes the word of this number, counted from an even address on.
    #[tactic(auto, unfolding(crate::specs::Ranges::answers_at))]
    fn deposit_at(&mut self, address: u32, number: u32, word: u16)
        requires { answers_at (address + 2 * number) self.old ≡ true }
        ensures state { self.new ≡ deposit_of (address + 2 * number) word self.old }
        ensures answers { (a : ℕ) → answers_at a self.new ≡ answers_at a self.old }
    {
        self.machine.deposit(address + 2 * number, word);
    }

    /// Reads so many words from an even address on. The only error is want of memory, and nothing is read then.
    #[tactic(auto, unfolding(crate::specs::Ranges::reads_at))]
    pub(crate) fn words_at(
        &mut self,
        alloc: A,
        address: u32,
        count: u32,
    ) -> Result<Vec<u16, A>, AllocError>
        requires { all_answer address count self.old ≡ true }
        ensures ok { IfOk result (λ words. reads_at address count self.old ≡ (self.new, words.items)) }
        ensures err { OnErr result (self.new ≡ self.old) }
    {
        let mut words = Vec::with_capacity(alloc, count as usize)?;
        for number in 0..count {
            let word = self.word_at(address, number);
            push_within(&mut words, word);
        }
        Ok(words)
    }

    /// Writes words from an even address on, one after another.
    #[tactic(auto, unfolding(crate::specs::Ranges::deposited))]
    pub(crate) fn deposit_all(&mut self, address: u32, words: &[u16])
        requires few { length words.now ≤ 64 }
        requires answer { all_answer address (length words.now) self.old ≡ true }
        ensures { self.new ≡ deposited address words.now self.old }
    {
        for (number, &word) in words.iter().enumerate() {
            self.deposit_at(address, number as u32, word);
        }
    }
}
