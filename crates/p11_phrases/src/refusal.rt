// Why a typed line means nothing.
ghost use Rattle.p11_phrases.specs.declared.refusal.Refusal.TheVariants as refusal;
ghost use Rattle.std.specs.Prelude.{◌≡◌};

use p11_lines::NoMemory as MissingMemory;
use std::alloc::{AllocError, AllocFailed};

/// Why a typed line means nothing.
#[derive(Clone, Copy, PartialEq, Eq)]
pub enum Refusal {
    /// Several words begin as the first one does.
    Ambiguous,
    /// A range's last address is before its first.
    Backwards,
    /// There is no register at an address, or between two.
    NoRegister,
    /// A range of more than 64 words is deposited.
    TooMany,
    /// Behind a register or a range stands what is no count.
    NotCount,
    /// What is deposited are no words.
    NotWord,
    /// Not one word is deposited in a range.
    OneWord,
    /// There was no memory to read it.
    NoMemory,
}

impl Refusal {
    /// A sentence about it, without its stop.
    pub fn reason(self) -> &'static str {
        match self {
            Refusal::Ambiguous => "several words begin so",
            Refusal::Backwards => "the range ends before it begins",
            Refusal::NoRegister => {
                "there are the registers r0 to r7, sp, pc and ps, and 777700 to 777707 and 777716 (the user's SP); a range has two of r0 to r7"
            }
            Refusal::TooMany => "a deposit writes 1 to 64 words",
            Refusal::NotCount =>
                "behind a register stands a count or nothing, behind a range nothing",
            Refusal::NotWord =>
                "what is deposited are words: one to six octal digits, at most 177777",
            Refusal::OneWord => "one word is deposited in each place of a range",
            Refusal::NoMemory => "there is no memory left for it",
        }
    }
}

impl From<MissingMemory> for Refusal {
    ghost from_gives = { λ _ e. e ≡ refusal.NoMemory };

    fn from(_: MissingMemory) -> Self {
        Refusal::NoMemory
    }
}

impl From<AllocError> for Refusal {
    ghost from_gives = { λ _ e. e ≡ refusal.NoMemory };

    fn from(_: AllocError) -> Self {
        Refusal::NoMemory
    }
}

impl<T: Drop> From<AllocFailed<T>> for Refusal {
    ghost from_gives = { λ _ e. e ≡ refusal.NoMemory };

    fn from(_: AllocFailed<T>) -> Self {
        Refusal::NoMemory
    }
}
