// What a console wants of its host.
ghost use Rattle.p11_dialogue.specs.declared.want.Want.TheVariants as want;
ghost use Rattle.std.specs.Prelude.{◌≡◌};

use p11_lines::NoMemory;
use std::alloc::AllocError;

/// What a console wants of its host.
#[derive(Clone, Copy, PartialEq, Eq)]
pub enum Want {
    /// A further step.
    Step,
    /// Keys: nothing is under way.
    Keys,
    /// Keys, or a tick: the machine idles.
    Idle,
    /// Memory, for want of which nothing was done.
    Memory,
    /// The bytes of the file that `name` tells.
    Fetch,
    /// That `image` is written to the file that `name` tells.
    Put,
    /// The names of files that begin as `front` tells, for `names`.
    Names,
    /// Nothing more: the dialogue is over.
    End,
}

impl From<NoMemory> for Want {
    ghost from_gives = { λ _ e. e ≡ want.Memory };

    fn from(_: NoMemory) -> Self {
        Want::Memory
    }
}

impl From<AllocError> for Want {
    ghost from_gives = { λ _ e. e ≡ want.Memory };

    fn from(_: AllocError) -> Self {
        Want::Memory
    }
}
