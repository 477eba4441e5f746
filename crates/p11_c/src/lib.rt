//! A PDP-11/40 for programs in C, Python and Rust: whole sessions of an operator's console, from bytes to bytes, a machine
//! that is kept from line to line, and the console of a dialogue, which is given events.
#![tactic(auto)]

ghost use Rattle.std.specs.Prelude.{◌≡◌, ⊤, List, ℕ, None, nat_lt};
ghost use Rattle.p11_handles.specs.Calls.{Ends, asked_for, lent};
ghost use Rattle.p11_cpu.specs.OperatorDevices.{machine_devices_of};
ghost use Rattle.p11_handles.specs.HeldCalls.{OnHeld, LinesEnd, PutsFile, ForgetsFile, HandsText, HandsTyped, HandsFiles};
ghost use Rattle.p11_handles.specs.HeldCalls.{HandsFile, Opens};
ghost use Rattle.p11_handles.specs.HeldRuns.{RunEnds};
ghost use Rattle.p11_handles.specs.Registers.{told_registers};
ghost use Rattle.p11_handles.specs.Statuses.{number_of_status};
ghost use Rattle.p11_handles.specs.Typed.{typed_in};
ghost use Rattle.p11_handles.specs.declared.status.Status.{Status};

mod console;

use p11_handles::{
    Handle, Registers, Run, Status, hand_file, hand_files, hand_out, hand_text, hand_typed,
    new_machine, play, play_typed,
};
use std::alloc::Global;

/// Does a whole script on a new machine, and hands out the text of its answers and the files after it.
///
/// `kwords`: thousands (1,024) of words of memory, 4 to 124 in steps of 4; `lines`: how many decoded instructions the
/// machine keeps, 0 to 4,096. `files`: the row of the files that the store has, in which the last of a name counts.
/// Lengths are in bytes.
///
/// # Errors
///
/// The number of a `Status`. Too small a buffer is told with both lengths that are wanted, and nothing else is written;
/// where the session is refused, nothing is written at all.
#[unsafe(no_mangle)]
pub extern "C" fn p11_session(
    alloc: Global,
    kwords: u32,
    lines: u32,
    script: &[u8],
    files: &[u8],
    answers: &mut [u8],
    answers_length: &mut usize,
    files_out: &mut [u8],
    files_length: &mut usize,
) -> i32
    ensures { Ends Global (λ text. text) (asked_for kwords lines script.now files.now) result
        (lent answers.old answers_length.old) (lent files_out.old files_length.old)
        (lent answers.new answers_length.new) (lent files_out.new files_length.new) }
{
    match play(alloc, kwords, lines, script, files) {
        Ok(given) => {
            let (text, left) = (given.text.as_slice(), given.files.as_slice());
            hand_out(text, left, answers, answers_length, files_out, files_length).number()
        }
        Err(status) => status.number(),
    }
}

/// Runs a session as `p11_session` does, and hands out the bytes that were typed on the terminal, as they are, in the
/// place of the answers' text.
#[unsafe(no_mangle)]
pub extern "C" fn p11_typed(
    alloc: Global,
    kwords: u32,
    lines: u32,
    script: &[u8],
    files: &[u8],
    typed: &mut [u8],
    typed_length: &mut usize,
    files_out: &mut [u8],
    files_length: &mut usize,
) -> i32
    ensures { Ends Global typed_in (asked_for kwords lines script.now files.now) result
        (lent typed.old typed_length.old) (lent files_out.old files_length.old)
        (lent typed.new typed_length.new) (lent files_out.new files_length.new) }
{
    match play_typed(alloc, kwords, lines, script, files) {
        Ok(given) => {
            let (bytes, left) = (given.text.as_slice(), given.files.as_slice());
            hand_out(bytes, left, typed, typed_length, files_out, files_length).number()
        }
        Err(status) => status.number(),
    }
}

/// Makes a new machine, which the handle holds from then on in the place of what it held.
///
/// `kwords`, `lines` and `files` are as for `p11_session`.
///
/// # Errors
///
/// The number of a `Status`; the handle holds then what it held.
#[unsafe(no_mangle)]
pub extern "C" fn p11_new(
    alloc: Global,
    kwords: u32,
    lines: u32,
    files: &[u8],
    handle: &mut Handle,
) -> i32
    ensures { (status : Status) × (result ≡ number_of_status status)
        × Opens kwords lines files.now status handle.old.slot.held handle.new.slot.held }
{
    match new_machine(alloc, kwords, lines, files) {
        Ok(machine) => {
            handle.hold(alloc, machine);
            Status::Done.number()
        }
        Err(status) => status.number(),
    }
}

/// Does a line on the machine that the handle holds, or the lines of a script, as a session does them. The text of
/// their answers is kept with the machine in the place of the last.
///
/// # Errors
///
/// The number of a `Status`. The handle holds the machine as it is then, also where it is `NoMemory` or `TooLong`.
#[unsafe(no_mangle)]
pub extern "C" fn p11_line(alloc: Global, handle: &mut Handle, line: &[u8]) -> i32
    ensures { OnHeld (λ kept status kept'. LinesEnd Global line.now status kept kept') ⊤
        handle.old.slot.held result handle.new.slot.held }
{
    let Some(mut machine) = handle.take(alloc) else {
        return Status::NoMachine.number();
    };
    let status = machine.play(alloc, line);
    handle.put(machine);
    status.number()
}

/// Makes a run on the machine that the handle holds, as the line `step` does with so many turns, or, where `until_idle`
/// isn't 0, the line `continue`; and tells its numbers. The text of that line's answer is kept with the machine in the
/// place of the last.
///
/// # Errors
///
/// The number of a `Status`: `TooMany` for 0 turns, for more than 100,000,000, and for more than bring the count of all
/// turns to 2^62; nothing changes then, and nothing is told. Where it is `NoMemory`, the run is made and told, and the
/// handle holds the machine as it is then.
#[unsafe(no_mangle)]
pub extern "C" fn p11_run(
    alloc: Global,
    handle: &mut Handle,
    turns: u32,
    until_idle: u32,
    run: &mut Run,
) -> i32
    ensures { OnHeld (λ kept status kept'. RunEnds Global (nat_lt 0 until_idle) turns status kept run.old kept' run.new)
        (run.new ≡ run.old) handle.old.slot.held result handle.new.slot.held }
{
    let Some(mut machine) = handle.take(alloc) else {
        return Status::NoMachine.number();
    };
    let status = machine.run(alloc, turns, until_idle > 0, run);
    handle.put(machine);
    status.number()
}

/// Puts a file into the store of the machine that the handle holds: its name has these bytes from then on, in the place
/// of any that it had.
///
/// # Errors
///
/// The number of a `Status`: `BadFiles` for a name or bytes that no row of files has, then `NoMemory`. Nothing changes
/// then.
#[unsafe(no_mangle)]
pub extern "C" fn p11_put_file(alloc: Global, handle: &mut Handle, name: &[u8], bytes: &[u8]) -> i32
    ensures { OnHeld (λ kept status kept'. PutsFile name.now bytes.now status kept kept') ⊤
        handle.old.slot.held result handle.new.slot.held }
{
    let Some(mut machine) = handle.take(alloc) else {
        return Status::NoMachine.number();
    };
    let status = machine.put_file(alloc, name, bytes);
    handle.put(machine);
    status.number()
}

/// Hands out the last bytes under a name in the store of the machine that the handle holds.
///
/// # Errors
///
/// The number of a `Status`: `NoFile` where the store has no file of the name, and nothing is written. Too small a buffer
/// is told with the length that is wanted, and nothing else is written.
#[unsafe(no_mangle)]
pub extern "C" fn p11_file(
    alloc: Global,
    handle: &mut Handle,
    name: &[u8],
    bytes: &mut [u8],
    bytes_length: &mut usize,
) -> i32
    ensures { OnHeld (λ kept status kept'. (kept' ≡ kept) × HandsFile status kept.files name.now
        (lent bytes.old bytes_length.old) (lent bytes.new bytes_length.new))
        (lent bytes.new bytes_length.new ≡ lent bytes.old bytes_length.old)
        handle.old.slot.held result handle.new.slot.held }
{
    let Some(machine) = handle.take(alloc) else {
        return Status::NoMachine.number();
    };
    let status = hand_file(&machine, name, bytes, bytes_length);
    handle.put(machine);
    status.number()
}

/// Drops each file of a name from the store of the machine that the handle holds.
///
/// # Errors
///
/// The number of a `Status`: `NoFile` where the store has no file of the name, and nothing changes.
#[unsafe(no_mangle)]
pub extern "C" fn p11_forget(alloc: Global, handle: &mut Handle, name: &[u8]) -> i32
    ensures { OnHeld (λ kept status kept'. ForgetsFile name.now status kept kept') ⊤
        handle.old.slot.held result handle.new.slot.held }
{
    let Some(mut machine) = handle.take(alloc) else {
        return Status::NoMachine.number();
    };
    let status = machine.forget_file(name);
    handle.put(machine);
    status.number()
}

/// Hands out the text of the last line's answers.
///
/// # Errors
///
/// The number of a `Status`. Too small a buffer is told with the length that is wanted, and nothing else is written.
#[unsafe(no_mangle)]
pub extern "C" fn p11_answer(
    alloc: Global,
    handle: &mut Handle,
    answer: &mut [u8],
    answer_length: &mut usize,
) -> i32
    ensures { OnHeld (λ kept status kept'. (kept' ≡ kept) × HandsText status kept.answer
        (lent answer.old answer_length.old) (lent answer.new answer_length.new))
        (lent answer.new answer_length.new ≡ lent answer.old answer_length.old)
        handle.old.slot.held result handle.new.slot.held }
{
    let Some(machine) = handle.take(alloc) else {
        return Status::NoMachine.number();
    };
    let status = hand_text(machine.answer(), answer, answer_length);
    handle.put(machine);
    status.number()
}

/// Hands out, of the text of the last line's answers, the bytes that were typed on the terminal, as they are.
///
/// # Errors
///
/// The number of a `Status`. Too small a buffer is told with the length that is wanted, and nothing else is written.
#[unsafe(no_mangle)]
pub extern "C" fn p11_typed_text(
    alloc: Global,
    handle: &mut Handle,
    typed: &mut [u8],
    typed_length: &mut usize,
) -> i32
    ensures { OnHeld (λ kept status kept'. (kept' ≡ kept) × HandsTyped status kept.answer
        (lent typed.old typed_length.old) (lent typed.new typed_length.new))
        (lent typed.new typed_length.new ≡ lent typed.old typed_length.old)
        handle.old.slot.held result handle.new.slot.held }
{
    let Some(machine) = handle.take(alloc) else {
        return Status::NoMachine.number();
    };
    let status = hand_typed(alloc, machine.answer(), typed, typed_length);
    handle.put(machine);
    status.number()
}

/// Tells the registers of the machine that the handle holds.
///
/// # Errors
///
/// The number of a `Status`, and nothing is written.
#[unsafe(no_mangle)]
pub extern "C" fn p11_regs(alloc: Global, handle: &mut Handle, regs: &mut Registers) -> i32
    ensures { OnHeld (λ kept status kept'. (status ≡ Status.Done) × (kept' ≡ kept)
        × (regs.new ≡ told_registers kept.machine))
        (regs.new ≡ regs.old) handle.old.slot.held result handle.new.slot.held }
{
    let Some(machine) = handle.take(alloc) else {
        return Status::NoMachine.number();
    };
    *regs = machine.registers();
    handle.put(machine);
    Status::Done.number()
}

/// Tells how many keys wait for the machine that the handle holds to take them.
///
/// # Errors
///
/// The number of a `Status`, and nothing is written.
#[unsafe(no_mangle)]
pub extern "C" fn p11_keys_waiting(alloc: Global, handle: &mut Handle, keys: &mut u32) -> i32
    ensures { OnHeld (λ kept status kept'. (status ≡ Status.Done) × (kept' ≡ kept)
        × (keys.new ≡ (machine_devices_of kept.machine).keys))
        (keys.new ≡ keys.old) handle.old.slot.held result handle.new.slot.held }
{
    let Some(machine) = handle.take(alloc) else {
        return Status::NoMachine.number();
    };
    *keys = machine.keys_waiting();
    handle.put(machine);
    Status::Done.number()
}

/// Hands out the row of the machine's files.
///
/// # Errors
///
/// The number of a `Status`. Too small a buffer is told with the length that is wanted, and nothing else is written.
#[unsafe(no_mangle)]
pub extern "C" fn p11_files(
    alloc: Global,
    handle: &mut Handle,
    files: &mut [u8],
    files_length: &mut usize,
) -> i32
    ensures { OnHeld (λ kept status kept'. (kept' ≡ kept) × HandsFiles status kept.files
        (lent files.old files_length.old) (lent files.new files_length.new))
        (lent files.new files_length.new ≡ lent files.old files_length.old)
        handle.old.slot.held result handle.new.slot.held }
{
    let Some(machine) = handle.take(alloc) else {
        return Status::NoMachine.number();
    };
    let status = hand_files(alloc, &machine, files, files_length);
    handle.put(machine);
    status.number()
}

/// Drops the machine that the handle holds, if it holds one.
#[unsafe(no_mangle)]
pub extern "C" fn p11_drop(alloc: Global, handle: &mut Handle)
    ensures { handle.new.slot.held ≡ None }
{
    drop(handle.take(alloc));
}
