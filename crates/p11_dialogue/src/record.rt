// The texts of the record.
ghost use Rattle.std.specs.Prelude.{◌≡◌, ◌++◌, IfOk};
ghost use Rattle.p11_dialogue.specs.Record.{ended, run_text, keys_text, tick_text, recorded};

use p11_lines::{Answer, Bytes, Line, NoMemory, line_of};
use std::alloc::Allocator;

/// The text of a line in the record.
#[tactic(auto, unfolding(crate::specs::Record::ended))]
pub fn record_line<A: Allocator>(alloc: A, line: &Line<A>) -> Result<Bytes<A>, NoMemory>
    ensures { IfOk result (λ text. text ≡ ended line.now) }
{
    let mut text = line_of(alloc, line)?;
    text.extend_from_slice(b"\n")?;
    Ok(Bytes::from_vec(text))
}

/// The text of UNMOUNT in the record.
pub fn record_unmount<A: Allocator>(alloc: A, drive: u32) -> Result<Bytes<A>, NoMemory>
    ensures { IfOk result (λ text. text ≡ ended {A = A} (Line.Unmount drive)) }
{
    record_line(alloc, &Line::Unmount { drive })
}

/// The text that the record has of a run of so many turns; none where there were none.
#[tactic(auto, unfolding(crate::specs::Record::run_text, crate::specs::Record::ended))]
pub fn record_run<A: Allocator>(alloc: A, turns: u32) -> Result<Bytes<A>, NoMemory>
    ensures { IfOk result (λ text. text ≡ run_text A turns) }
{
    if turns == 0 {
        return Ok(Bytes::from_vec(Vec::new(alloc)));
    }
    record_line(alloc, &Line::Step { turns })
}

/// The text of keys that are pressed behind a run of so many turns.
#[tactic(auto, unfolding(crate::specs::Record::keys_text))]
pub fn record_keys<A: Allocator + Copy>(
    alloc: A,
    turns: u32,
    keys: &[u8],
) -> Result<Bytes<A>, NoMemory>
    ensures { IfOk result (λ text. text ≡ keys_text A turns keys.now) }
{
    let mut copy = Vec::new(alloc);
    copy.extend_from_slice(keys)?;
    let line = Line::Key {
        text: Bytes::from_vec(copy),
    };
    let pressed = record_line(alloc, &line)?;
    let mut text = record_run(alloc, turns)?.into_vec();
    text.extend_from_slice(pressed.as_slice())?;
    Ok(Bytes::from_vec(text))
}

/// The text of a tick behind a run of so many turns.
#[tactic(auto, unfolding(crate::specs::Record::tick_text))]
pub fn record_tick<A: Allocator>(alloc: A, turns: u32) -> Result<Bytes<A>, NoMemory>
    ensures { IfOk result (λ text. text ≡ tick_text A turns) }
{
    let mut text = record_run(alloc, turns)?.into_vec();
    text.extend_from_slice(b"tick\n")?;
    Ok(Bytes::from_vec(text))
}

/// What is recorded of a line that has this text, by its answer.
#[tactic(auto, unfolding(crate::specs::Record::recorded))]
pub fn recorded<A: Allocator>(alloc: A, answer: &Answer<A>, text: Bytes<A>) -> Bytes<A>
    ensures { result ≡ recorded text answer.now }
{
    match answer {
        Answer::Refused(_) => Bytes::from_vec(Vec::new(alloc)),
        _ => text,
    }
}
