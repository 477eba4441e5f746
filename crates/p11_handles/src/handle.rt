// What C's variable holds: a machine or none.
ghost use Rattle.std.specs.Prelude.{◌≡◌, ◌≤◌, None, Some, IfOk, IfErr, MatchOption};
ghost use Rattle.p11_handles.specs.Calls.{lent};
ghost use Rattle.p11_handles.specs.Held.{Held, machines_of};
ghost use Rattle.p11_handles.specs.HeldCalls.{HandsText, HandsTyped, HandsFiles, HandsFile, Opens};

use crate::held_machine::HeldMachine;
use crate::rows::read_row;
use crate::slot::Slot;
use crate::status::Status;
use crate::typed::typed_bytes;
use p11_panel::Config;
use std::alloc::Global;
use std::mem::replace;

/// What C's variable holds: a machine or none. All its bytes are 0 where it holds none yet.
#[repr(C)]
pub struct Handle {
    /// What it holds, and the pointer to it.
    pub slot: Slot,
    /// How many it holds: 0 or 1.
    machines: u32,
    ghost counted: { machines ≡ machines_of slot.held },
}

impl Drop for Handle {
    fn drop(self) {
        let Handle { slot, machines } = self;
        if machines == 1 {
            drop(slot.into_box());
        }
    }
}

impl Handle {
    /// Takes what it holds.
    #[tactic(auto, unfolding(crate::specs::Held::machines_of))]
    pub fn take(&mut self, alloc: Global) -> Option<Box<HeldMachine>>
        ensures taken { MatchOption result (self.old.slot.held ≡ None) (λ machine. self.old.slot.held ≡ Some machine.value) }
        ensures none { self.new.slot.held ≡ None }
    {
        let machines = self.machines;
        self.machines = 0;
        let slot = replace(&mut self.slot, Slot::empty(alloc));
        if machines == 1 {
            Some(slot.into_box())
        } else {
            None
        }
    }

    /// Holds a machine.
    #[tactic(auto, unfolding(crate::specs::Held::machines_of))]
    pub fn put(&mut self, machine: Box<HeldMachine>)
        requires { self.old.slot.held ≡ None }
        ensures { self.new.slot.held ≡ Some machine.value }
    {
        self.slot = Slot::of(machine);
        self.machines = 1;
    }

    /// Holds a machine in the place of what it held.
    pub fn hold(&mut self, alloc: Global, machine: Box<HeldMachine>)
        ensures { self.new.slot.held ≡ Some machine.value }
    {
        drop(self.take(alloc));
        self.put(machine);
    }
}

/// A new machine of these sizes, with the files of a row.
///
/// # Errors
///
/// `BadSize` for sizes that no machine has, then `BadFiles` for bytes that are no row of files; and `NoMemory`.
pub fn new_machine(
    alloc: Global,
    kwords: u32,
    lines: u32,
    files: &[u8],
) -> Result<Box<HeldMachine>, Status>
    ensures ok { IfOk result (λ machine. (held : Held) → Opens kwords lines files.now Status.Done held (Some machine.value)) }
    ensures err { IfErr result (λ status. (held : Held) → Opens kwords lines files.now status held held) }
{
    let Ok(config) = Config::new(kwords, lines) else {
        return Err(Status::BadSize);
    };
    let files = match read_row(alloc, files) {
        Ok(files) => files,
        Err(status) => return Err(status),
    };
    let Ok(machine) = HeldMachine::new(alloc, config, files) else {
        return Err(Status::NoMemory);
    };
    match Box::new(alloc, machine) {
        Ok(machine) => Ok(machine),
        Err(_) => Err(Status::NoMemory),
    }
}

/// Copies a text into the caller's buffer, if that has room for it; it is told the length.
#[tactic(auto, unfolding(crate::specs::HeldCalls::HandsText))]
pub fn hand_text(text: &[u8], out: &mut [u8], out_length: &mut usize) -> Status
    ensures { HandsText result text.now (lent out.old out_length.old) (lent out.new out_length.new) }
{
    *out_length = text.len();
    if out.len() < text.len() {
        return Status::TooSmall;
    }
    out[..text.len()].copy_from_slice(text);
    Status::Done
}

/// Copies the typed bytes that a text shows into the caller's buffer, if that has room for them; it is told the length.
pub fn hand_typed(alloc: Global, text: &[u8], out: &mut [u8], out_length: &mut usize) -> Status
    ensures { HandsTyped result text.now (lent out.old out_length.old) (lent out.new out_length.new) }
{
    match typed_bytes(alloc, text) {
        Ok(typed) => hand_text(typed.as_slice(), out, out_length),
        Err(_) => Status::NoMemory,
    }
}

/// Copies the row of a machine's files into the caller's buffer, if that has room for it; it is told the length.
pub fn hand_files(
    alloc: Global,
    machine: &HeldMachine,
    out: &mut [u8],
    out_length: &mut usize,
) -> Status
    ensures { HandsFiles result machine.now.files (lent out.old out_length.old) (lent out.new out_length.new) }
{
    match machine.files(alloc) {
        Ok(row) => hand_text(row.as_slice(), out, out_length),
        Err(_) => Status::NoMemory,
    }
}

/// Copies the last bytes under a name into the caller's buffer, if that has room for them; it is told the length.
pub fn hand_file(
    machine: &HeldMachine,
    name: &[u8],
    out: &mut [u8],
    out_length: &mut usize,
) -> Status
    ensures { HandsFile result machine.now.files name.now (lent out.old out_length.old) (lent out.new out_length.new) }
{
    match machine.file(name) {
        Some(bytes) => hand_text(bytes, out, out_length),
        None => Status::NoFile,
    }
}
