//! The processor status word and its sources.
ghost use Rattle.std.specs.Prelude.{◌≡◌};
ghost use Rattle.p11_psw.specs.Sources.{status_from_return, status_from_vector, status_from_write};
ghost use Rattle.p11_psw.specs.Status.{new_status, status_of, status_word};

use crate::mode::Mode;
use crate::priority::Priority;
use p11_words::{bit, flag};

/// The processor's status: its modes, its priority, the trace bit T and the condition codes N, Z, V and C.
#[derive(Clone, Copy, Debug, PartialEq, Eq)]
pub struct Psw {
    pub current: Mode,
    pub previous: Mode,
    pub priority: Priority,
    pub trace: bool,
    pub n: bool,
    pub z: bool,
    pub v: bool,
    pub c: bool,
}

impl Psw {
    /// The status of a new machine, whose word is 0.
    #[tactic(auto, unfolding(crate::specs::Status::new_status))]
    pub fn new() -> Psw
        ensures { result ≡ new_status }
    {
        Psw::from_word(0)
    }

    /// The word that shows at the status word's bus address, and that a trap or an interrupt pushes.
    #[tactic(auto, unfolding(crate::specs::Status::status_word))]
    #[inline(always)]
    pub fn word(self) -> u16
        ensures { result ≡ status_word self }
    {
        let modes = self.current.number() * 0o40000 + self.previous.number() * 0o10000;
        let codes = flag(self.n, 8) + flag(self.z, 4) + flag(self.v, 2) + flag(self.c, 1);
        modes + self.priority.number() * 0o40 + flag(self.trace, 0o20) + codes
    }

    /// The status that a word says: every field, and nothing of bits 11:8.
    #[tactic(auto, unfolding(crate::specs::Status::status_of))]
    #[inline(always)]
    pub fn from_word(word: u16) -> Psw
        ensures { result ≡ status_of word }
    {
        Psw {
            current: Mode::from_number(word >> 14),
            previous: Mode::from_number(word >> 12 & 3),
            priority: Priority::from_number(word >> 5 & 7),
            trace: bit(word, 4),
            n: bit(word, 3),
            z: bit(word, 2),
            v: bit(word, 1),
            c: bit(word, 0),
        }
    }

    /// The status after a trap or an interrupt whose vector has this second word.
    #[tactic(auto, unfolding(crate::specs::Sources::status_from_vector))]
    #[inline(always)]
    pub fn from_vector(before: Psw, word: u16) -> Psw
        ensures { result ≡ status_from_vector before word }
    {
        Psw {
            previous: before.current,
            ..Psw::from_word(word)
        }
    }

    /// The status after RTI or RTT has popped this word.
    #[tactic(auto, unfolding(crate::specs::Sources::status_from_return))]
    #[inline(always)]
    pub fn from_rti(before: Psw, word: u16) -> Psw
        ensures { result ≡ status_from_return before word }
    {
        let popped = Psw::from_word(word);
        match before.current {
            Mode::Kernel => popped,
            Mode::Mode01 | Mode::Mode10 | Mode::User => Psw {
                current: popped.current.joined(before.current),
                previous: popped.previous.joined(before.previous),
                priority: before.priority,
                ..popped
            },
        }
    }

    /// The status after this word has been written to the status word's bus address, 777776.
    #[tactic(auto, unfolding(crate::specs::Sources::status_from_write))]
    pub fn explicit_write(before: Psw, word: u16) -> Psw
        ensures { result ≡ status_from_write before word }
    {
        Psw {
            trace: before.trace,
            ..Psw::from_word(word)
        }
    }
}
