// Why a command is refused, in a sentence.
use p11_dialogue::{Note, note_of, sentence};
use p11_lines::Fault;
use p11_panel::Command;
use std::alloc::Allocator;

/// Why a command is refused with this fault.
pub(crate) fn note_for<A: Allocator>(alloc: A, fault: Fault, command: &Command<A>) -> Note<A> {
    match (fault, command) {
        (Fault::TooMany, Command::Examine { .. }) => sentence(
            alloc,
            "examine shows 1 to 512 words",
        ),
        (Fault::TooMany, Command::Deposit { .. }) => sentence(
            alloc,
            "deposit writes 1 to 64 words, and one alone at 760000 and up",
        ),
        _ => note_of(alloc, fault),
    }
}
