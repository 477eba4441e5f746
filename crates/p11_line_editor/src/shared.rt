// What the words have in common that may stand at a place.
ghost use Rattle.std.specs.Prelude.{◌≡◌, fold};
ghost use Rattle.p11_line_editor.specs.Completion.{common_front};

/// The front that two texts have in common.
#[tactic(auto, using(crate::proofs::Fronts::front_more, crate::proofs::Fronts::front_ends, crate::proofs::Fronts::front_ends_there, crate::proofs::Fronts::front_differs))]
fn common_front<'a>(one: &'a [u8], other: &[u8]) -> &'a [u8]
    ensures { result.now ≡ common_front one.entry.now other.now }
{
    let mut count = 0;
    while count < one.len() && count < other.len() && one[count] == other[count] {
        count += 1;
    }
    &one[..count]
}

/// The front that all words have in common.
pub(crate) fn common<'a>(first: &'a [u8], others: &[&[u8]]) -> &'a [u8]
    ensures { result.now ≡ fold (λ front word. common_front front word.now) first.entry.now others.now }
{
    let mut front = first;
    for word in others {
        front = common_front(front, word);
    }
    front
}
