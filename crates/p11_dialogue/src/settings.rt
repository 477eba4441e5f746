// How a dialogue is held.
ghost use Rattle.std.specs.Prelude.{◌≡◌};
ghost use Rattle.p11_dialogue.specs.Manner.{is_person, is_batch, tried_by};

/// Where lines come from.
#[derive(Clone, Copy, PartialEq, Eq)]
pub enum Manner {
    /// A person types them, behind a prompt.
    Typed,
    /// A program or a file gives them.
    Given,
    /// From a script alone: each line has the answer that a session gives it.
    Batch,
}

/// How a dialogue is held.
#[derive(Clone, Copy)]
pub struct Settings {
    pub manner: Manner,
    /// Whether a script that is all ends at its first refused line.
    pub is_strict: bool,
    /// Whether `save` is answered, and writes nothing.
    pub is_saveless: bool,
    /// Whether the machine's terminal comes before the first line that is typed.
    pub is_talk: bool,
}

/// How a line is tried.
#[derive(Clone, Copy)]
pub struct Trying {
    /// Whether a run is made at once, and not in slices.
    pub is_whole: bool,
    /// Whether `save` is answered, and writes nothing.
    pub is_saveless: bool,
    /// Whether a person is asked before a file is written over.
    pub is_asking: bool,
}

pub fn is_person(manner: Manner) -> bool
    ensures { result ≡ is_person manner }
{
    match manner {
        Manner::Typed => true,
        _ => false,
    }
}

pub fn is_batch(manner: Manner) -> bool
    ensures { result ≡ is_batch manner }
{
    match manner {
        Manner::Batch => true,
        _ => false,
    }
}

/// How a line is tried.
#[tactic(auto, unfolding(crate::specs::Manner::tried_by))]
pub fn tried_by(settings: Settings) -> Trying
    ensures { result ≡ tried_by settings }
{
    Trying {
        is_whole: is_batch(settings.manner),
        is_saveless: settings.is_saveless,
        is_asking: is_person(settings.manner),
    }
}
