// Why a line is refused, in a sentence.
use crate::note::Note;
use crate::text::Text;
use p11_lines::Fault;
use std::alloc::Allocator;

/// Why, by the fault.
fn reason_of(fault: Fault) -> &'static str {
    match fault {
        Fault::NoDrive => "there are drives 0 to 7",
        Fault::DriveEmpty => "there is no pack on the drive; mount puts one there",
        Fault::DriveTaken => "there is a pack on the drive; unmount takes it off",
        Fault::ImageTooLong => "the file is longer than a pack, which has 2,494,464 bytes",
        Fault::OddAddress => "a word has an even address",
        Fault::NoAnswer => "no memory and no device answers at one of the addresses",
        Fault::DriveBusy => "the drive moves sectors or seeks; let the machine make some turns",
        Fault::KeysFull => "64 keys wait at most; let the machine take some",
        Fault::BadTape => "the file is no absolute tape",
        Fault::TooMany => "a run has 1 to 100,000,000 turns",
        Fault::BadRegister => {
            "there are the registers 0 to 5, 6 (SP), 7 (PC), 10 (the user's SP) and 11 (status)"
        }
        Fault::NoMemory => "there is no memory left for it",
        Fault::BadLine => "the line isn't in the console's language",
        Fault::StoreFault => "the file can't be read or written",
        Fault::BadSize => "no machine has the size",
    }
}

/// A sentence, without its stop.
pub fn sentence<A: Allocator>(alloc: A, sentence: &str) -> Note<A> {
    let mut text = Text::new(alloc);
    text.add(sentence.as_bytes());
    Note::of(text.into_vec())
}

/// Why a line is refused with this fault.
pub fn note_of<A: Allocator>(alloc: A, fault: Fault) -> Note<A> {
    sentence(alloc, reason_of(fault))
}

/// Why a file can't be had or written.
pub fn note_of_file<A: Allocator>(alloc: A, name: &[u8], reason: &str) -> Note<A> {
    let mut text = Text::new(alloc);
    text.add(name);
    text.add(b": ");
    text.add(reason.as_bytes());
    Note::of(text.into_vec())
}
