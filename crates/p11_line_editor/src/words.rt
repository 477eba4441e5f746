// The words of a line, seen from a place in it.
ghost use Rattle.std.specs.Prelude.{◌≡◌, ◌≤◌, length, not};
ghost use Rattle.p11_line_editor.specs.Line.{is_blank, behind_last, word_start, last_word_start};

/// Where the word begins that ends at a place.
#[tactic(auto, using(crate::proofs::Places::behind_here, crate::proofs::Places::behind_down))]
pub(crate) fn word_start(text: &[u8], place: usize) -> usize
    requires { place ≤ length text.now }
    ensures value { result ≡ word_start text.now place }
    ensures within { result ≤ place }
{
    let mut at = place;
    while at > 0 {
        if text[at - 1] == b' ' {
            return at;
        }
        at -= 1;
    }
    0
}

/// Where the blanks begin that end at a place.
#[tactic(auto, using(crate::proofs::Places::behind_here, crate::proofs::Places::behind_down))]
pub(crate) fn blanks_start(text: &[u8], place: usize) -> usize
    requires { place ≤ length text.now }
    ensures value { result ≡ behind_last (λ byte. not (is_blank byte)) text.now place }
    ensures within { result ≤ place }
{
    let mut at = place;
    while at > 0 {
        if text[at - 1] != b' ' {
            return at;
        }
        at -= 1;
    }
    0
}

/// Where the word begins that is before a place, with blanks between.
pub(crate) fn last_word_start(text: &[u8], place: usize) -> usize
    requires { place ≤ length text.now }
    ensures value { result ≡ last_word_start text.now place }
    ensures within { result ≤ place }
{
    let end = blanks_start(text, place);
    word_start(text, end)
}
