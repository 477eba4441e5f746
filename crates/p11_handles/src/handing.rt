// What is handed out of a console.
ghost use Rattle.std.specs.Prelude.{option_copied};
ghost use Rattle.p11_handles.specs.Calls.{lent};
ghost use Rattle.p11_handles.specs.ConsoleCalls.{HandsDevices, HandsFront, HandsWanted};

use crate::handle::hand_text;
use crate::run::answer_text;
use crate::status::Status;
use p11_panel::{Answer, Panel};
use std::alloc::Global;

/// Copies as much of a text into the caller's buffer, from its front, as that has room for; it is told how many bytes.
pub fn hand_front(text: &[u8], out: &mut [u8], out_length: &mut usize)
    ensures { HandsFront text.now (lent out.old out_length.old) (lent out.new out_length.new) }
{
    let count = text.len().min(out.len());
    out[..count].copy_from_slice(&text[..count]);
    *out_length = count;
}

/// Copies what is wanted into the caller's buffer, if that has room for it; it is told the length.
pub fn hand_wanted(asked: Option<&[u8]>, out: &mut [u8], out_length: &mut usize) -> Status
    ensures { HandsWanted result (option_copied asked.entry) (lent out.old out_length.old) (lent out.new out_length.new) }
{
    match asked {
        Some(text) => hand_text(text, out, out_length),
        None => Status::NoFile,
    }
}

/// Copies the lines of the devices into the caller's buffer, if that has room for them; it is told the length.
#[tactic(auto, unfolding(crate::specs::HeldRuns::KeepsText))]
pub fn hand_devices(alloc: Global, panel: &Panel, out: &mut [u8], out_length: &mut usize) -> Status
    ensures { HandsDevices result panel.now (lent out.old out_length.old) (lent out.new out_length.new) }
{
    let answer = Answer::Devices(panel.devices());
    let (status, text) = answer_text(alloc, &answer);
    match status {
        Status::Done => hand_text(text.as_slice(), out, out_length),
        _ => Status::NoMemory,
    }
}
