// Lines of the history that have a part.
ghost use Rattle.std.specs.Prelude.{◌≡◌};
ghost use Rattle.p11_line_editor.specs.History.{contains, found_from};

use crate::history::History;
use std::alloc::Allocator;

/// Whether a text has a part.
#[tactic(auto, using(crate::proofs::Parts::contains_here, crate::proofs::Parts::contains_behind, crate::proofs::Parts::contains_nothing))]
fn contains(part: &[u8], text: &[u8]) -> bool
    ensures { result ≡ contains part.now text.now }
{
    let mut rest = text;
    while !rest.starts_with(part) {
        if rest.is_empty() {
            return false;
        }
        rest = &rest[1..];
    }
    true
}

/// How many lines back the first one is that has a part, from so many back on.
#[tactic(auto, using(crate::proofs::Parts::found_here, crate::proofs::Parts::found_behind, crate::proofs::Parts::found_none))]
pub(crate) fn found_from<A: Allocator>(
    history: &History<A>,
    part: &[u8],
    back: usize,
) -> Option<usize>
    ensures { result ≡ found_from part.now back history.now }
{
    for index in back..history.len() {
        let Some(line) = history.get(index) else {
            return None;
        };
        if contains(part, line) {
            return Some(index);
        }
    }
    None
}
