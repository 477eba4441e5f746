// The words with which a line begins.
ghost use Rattle.std.specs.Prelude.{◌≡◌, ◌<◌, ◌≤◌, option_map, slice_get, IfSome, IfNone};
ghost use Rattle.std.specs.Map.{lookup};
ghost use Rattle.std.specs.Str.{bytes_eq};
ghost use Rattle.p11_phrases.specs.Verbs.{full_words, other_words, begun_from, meant};

/// How many words there are (decimal).
pub const WORDS: usize = 22;

/// The place of `examine` among the words.
pub(crate) const EXAMINE: usize = 5;

/// The place of `deposit` among the words.
pub(crate) const DEPOSIT: usize = 6;

/// What a word stands for at a line's beginning.
#[derive(Clone, Copy)]
pub enum Meant {
    /// The full word at this place.
    Word(usize),
    /// Several full words begin so.
    Several,
    /// None does.
    Nothing,
}

/// The full words, by their places from 0 on: the language's in the order of its grammar, then talk, do, help and quit.
#[tactic(auto, unfolding(crate::specs::Verbs::full_words))]
pub fn full_word(place: usize) -> Option<&'static [u8]>
    ensures word { option_map (λ word. word.now) result ≡ slice_get full_words place }
    ensures past { IfNone result (22 ≤ place) }
{
    match place {
        0 => Some(b"mount"),
        1 => Some(b"unmount"),
        2 => Some(b"save"),
        3 => Some(b"changed"),
        4 => Some(b"load"),
        5 => Some(b"examine"),
        6 => Some(b"deposit"),
        7 => Some(b"start"),
        8 => Some(b"key"),
        9 => Some(b"tick"),
        10 => Some(b"clock"),
        11 => Some(b"switches"),
        12 => Some(b"set"),
        13 => Some(b"step"),
        14 => Some(b"continue"),
        15 => Some(b"regs"),
        16 => Some(b"device"),
        17 => Some(b"flush"),
        18 => Some(b"talk"),
        19 => Some(b"do"),
        20 => Some(b"help"),
        21 => Some(b"quit"),
        _ => None,
    }
}

/// The first full word from a place on that begins with these bytes.
#[tactic(auto, using(crate::proofs::Begun::begun_here, crate::proofs::Begun::begun_behind, crate::proofs::Begun::begun_none))]
fn begun_from(front: &[u8], place: usize) -> Option<usize>
    ensures first { result ≡ begun_from front.now place }
    ensures within { IfSome result (λ found. found < 22) }
{
    for index in place..WORDS {
        let Some(word) = full_word(index) else {
            return None;
        };
        if word.starts_with(front) {
            return Some(index);
        }
    }
    None
}

/// The place of the full word that another word stands for.
fn other_word(front: &[u8]) -> Option<usize>
    ensures { result ≡ lookup (bytes_eq front.now) other_words }
{
    if front == b"d".as_slice() {
        return Some(6);
    }
    if front == b"?".as_slice() {
        return Some(20);
    }
    if front == b"exit".as_slice() {
        return Some(21);
    }
    None
}

/// The full word that a word stands for: one that begins so, if it alone does.
#[tactic(auto, unfolding(crate::specs::Verbs::meant))]
pub fn word_meant(front: &[u8]) -> Meant
    ensures { result ≡ meant front.now }
{
    if let Some(place) = other_word(front) {
        return Meant::Word(place);
    }
    let Some(place) = begun_from(front, 0) else {
        return Meant::Nothing;
    };
    if begun_from(front, place + 1).is_some() {
        return Meant::Several;
    }
    Meant::Word(place)
}
