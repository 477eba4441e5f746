// What there is to say of the bytes of a paper tape.
use crate::note::Note;
use crate::reasons::sentence;
use crate::text::Text;
use p11_tape::{TapeFault, TapeFaultKind, read_tape};
use std::alloc::Allocator;

/// At so many places the first block behind a label is looked for.
const MOST_PLACES: u32 = 64;

/// What a person is told of bytes that were loaded as a tape; nothing of a tape that has a block.
pub fn note_of_tape<A: Allocator + Copy>(alloc: A, bytes: &[u8]) -> Option<Note<A>> {
    if bytes.is_empty() {
        return Some(sentence(alloc, "the file is empty: there is no block on the tape"));
    }
    if bytes.iter().all(|byte| *byte == 0) {
        return Some(sentence(
            alloc,
            "the file has zeros alone: there is no block on the tape",
        ));
    }
    match read_tape(alloc, bytes) {
        Ok(_) => None,
        Err(fault) => Some(note_of_fault(alloc, bytes, fault)),
    }
}

fn note_of_fault<A: Allocator + Copy>(alloc: A, bytes: &[u8], fault: TapeFault) -> Note<A> {
    let mut text = Text::new(alloc);
    match block_behind(alloc, bytes, fault) {
        Some(at) => {
            text.add(b"a label seems to be punched in front: the first block begins at byte ");
            text.add_number(at as u64);
            text.add(b", and examples/without-label cuts off what is before it");
        }
        None => {
            text.add(b"the tape is wrong at byte ");
            text.add_number(fault.at as u64);
            text.add(reason_of(fault.kind).as_bytes());
        }
    }
    Note::of(text.into_vec())
}

fn reason_of(kind: TapeFaultKind) -> &'static str {
    match kind {
        TapeFaultKind::Stray => ": a block begins with the bytes 001 and 000",
        TapeFaultKind::Count => ": a block counts its six bytes of header too",
        TapeFaultKind::Short => ": it ends inside a block",
        TapeFaultKind::Wrap => ": the block has data past address 177777",
        TapeFaultKind::Sum => ": the bytes of the block don't sum to 0",
        TapeFaultKind::Memory => ": there was no memory to read it",
    }
}

/// Where the first block begins behind a label, holes that a person reads: the first bytes that aren't 0 begin no block, and
/// from one of the next beginnings on the bytes are a tape.
fn block_behind<A: Allocator + Copy>(alloc: A, bytes: &[u8], fault: TapeFault) -> Option<usize> {
    let first = bytes.iter().position(|byte| *byte != 0)?;
    if fault.kind != TapeFaultKind::Stray || fault.at != first {
        return None;
    }
    let mut at = first;
    for _ in 0..MOST_PLACES {
        at = next_beginning(bytes, at)?;
        if read_tape(alloc, bytes.get(at..)?).is_ok() {
            return Some(at);
        }
    }
    None
}

/// The first place behind this one where bytes begin as a block does.
fn next_beginning(bytes: &[u8], behind: usize) -> Option<usize> {
    let mut at = behind;
    for _ in 0..bytes.len() {
        at = at.saturating_add(1);
        match bytes.get(at..) {
            Some([1, 0, ..]) => return Some(at),
            Some([]) | None => return None,
            Some(_) => {}
        }
    }
    None
}
