// The files that lines wait for.
ghost use Rattle.std.specs.Prelude.{◌≡◌, option_copied};
ghost use Rattle.p11_console.specs.Files.{GivesLine, file_command, file_of, file_name, pack_drive, is_mount, activity_missing};
ghost use Rattle.p11_console.specs.Tries.{refused};
ghost use Rattle.p11_lines.specs.declared.answer.Answer.TheVariants as answers;
ghost use Rattle.p11_panel.specs.Session.{fault_of};

use crate::tries::{act, refused};
use crate::trouble::Trouble;
use p11_dialogue::{Activity, note_of, note_of_file};
use p11_lines::{Bytes, Fault, Line};
use p11_panel::{Command, Panel, StoreError};
use std::alloc::Allocator;

/// The name of the file that a line reads or writes.
#[tactic(auto, unfolding(crate::specs::Files::file_name))]
pub(crate) fn name_of<A: Allocator>(line: &Line<A>) -> Option<&[u8]>
    ensures { option_copied result ≡ file_name line.now }
{
    match line {
        Line::Mount { name, .. } => Some(name.as_slice()),
        Line::Load { name } => Some(name.as_slice()),
        Line::Save { name, .. } => Some(name.as_slice()),
        _ => None,
    }
}

/// The drive of the pack whose file a line reads or writes.
#[tactic(auto, unfolding(crate::specs::Files::pack_drive))]
pub(crate) fn drive_of<A: Allocator>(line: &Line<A>) -> Option<u32>
    ensures { result ≡ pack_drive line.now }
{
    match line {
        Line::Mount { drive, .. } => Some(*drive),
        Line::Save { drive, .. } => Some(*drive),
        _ => None,
    }
}

/// Whether a line mounts a pack.
pub(crate) fn is_mount<A: Allocator>(line: &Line<A>) -> bool
    ensures { result ≡ is_mount line.now }
{
    match line {
        Line::Mount { .. } => true,
        _ => false,
    }
}

/// The command of a line on the bytes of its file.
#[tactic(auto, unfolding(crate::specs::Files::file_command))]
fn command_on<A: Allocator>(line: &Line<A>, bytes: Bytes<A>) -> Option<Command<A>>
    ensures { result ≡ file_command line.now bytes }
{
    match line {
        Line::Mount { drive, protect, .. } => Some(Command::Mount {
            drive: *drive,
            image: bytes,
            protect: *protect,
        }),
        Line::Load { .. } => Some(Command::Load { tape: bytes }),
        _ => None,
    }
}

/// The refusal of a line whose file can't be had.
fn refuse<A: Allocator + Copy>(alloc: A, name: &[u8], trouble: Trouble) -> Activity<A>
    ensures { result ≡ refused (answers.Refused (fault_of trouble.error)) }
{
    match trouble.error {
        StoreError::Refused => refused(
            alloc,
            Fault::StoreFault,
            note_of_file(alloc, name, trouble.reason),
        ),
        StoreError::NoMemory => refused(
            alloc,
            Fault::NoMemory,
            note_of_file(alloc, name, "there is no memory left for it"),
        ),
    }
}

/// What comes under way where a script can't be had.
pub(crate) fn activity_missing<A: Allocator + Copy>(
    alloc: A,
    is_all: bool,
    name: &[u8],
    trouble: Trouble,
) -> Activity<A>
    ensures { result ≡ activity_missing is_all trouble.error }
{
    if is_all {
        return Activity::Free;
    }
    refuse(alloc, name, trouble)
}

/// Does a line on its file: what comes under way.
#[tactic(auto, unfolding(crate::specs::Files::GivesLine))]
pub(crate) fn give_line<A: Allocator + Copy>(
    alloc: A,
    panel: &mut Panel<A>,
    line: &Line<A>,
    text: Bytes<A>,
    file: Result<Vec<u8, A>, Trouble>,
) -> Activity<A>
    ensures { GivesLine (file_of file) line.now text panel.old result panel.new }
{
    match file {
        Ok(bytes) => match command_on(line, Bytes::from_vec(bytes)) {
            Some(command) => act(alloc, panel, command, text),
            None => refused(alloc, Fault::StoreFault, note_of(alloc, Fault::StoreFault)),
        },
        Err(trouble) => refuse(alloc, file_in(line), trouble),
    }
}

/// The name of the file of a line, or none.
pub(crate) fn file_in<A: Allocator>(line: &Line<A>) -> &[u8] {
    match name_of(line) {
        Some(name) => name,
        None => b"",
    }
}
