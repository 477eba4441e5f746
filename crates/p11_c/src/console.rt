// The console for C: events in, bytes and requests out.
ghost use Rattle.std.specs.Prelude.{◌≡◌, ◌+◌, ◌++◌, ⊤, min, true, drop, None, Ok, Err, List, ℕ};
ghost use Rattle.p11_line_editor.specs.Completion.{word_of};
ghost use Rattle.p11_line_editor.specs.History.{remembered};
ghost use Rattle.p11_console.specs.Files.{Gives, Names, opening, wanted, image_in, may_replace, is_pack};
ghost use Rattle.p11_dialogue.specs.Said.{Says};
ghost use Rattle.p11_console.specs.Steps.{status_of};
ghost use Rattle.p11_dialogue.specs.Typing.{rested};
ghost use Rattle.p11_handles.specs.Calls.{lent};
ghost use Rattle.p11_handles.specs.HeldCalls.{HandsText};
ghost use Rattle.p11_handles.specs.Registers.{told_registers};
ghost use Rattle.p11_handles.specs.ConsoleCalls.{OnConsole, OpensConsole, DoneOr, TakesFront, HandsFront, HandsWanted, HandsDevices, wished};
ghost use Rattle.p11_handles.specs.ConsoleCalls.{StepsTelling, TakesBy, error_of, number_of_bool};
ghost use Rattle.p11_handles.specs.Statuses.{number_of_status};
ghost use Rattle.p11_handles.specs.declared.status.Status.{Status};

use p11_handles::{
    ConsoleHandle, Registers, Status, hand_devices, hand_front, hand_text, hand_wanted,
    new_console, number_of_bool, number_of_want, tell_registers,
};
use std::alloc::Global;

/// Makes a console over a new machine, which the handle holds from then on in the place of what it held.
///
/// `kwords`: thousands (1,024) of words of memory, 4 to 124 in steps of 4; `lines`: how many decoded instructions the
/// machine keeps, 0 to 4,096. `manner`: 0 where a person types the lines, behind a prompt; 1 where a program or a file gives
/// them; 2 where a script is all. The others are 0 for no: `strict`, whether a script that is all ends at its first refused
/// line; `saveless`, whether `save` is answered and writes nothing; `talk`, whether the machine's terminal comes before the
/// first line that is typed.
///
/// # Errors
///
/// The number of a `Status`: `BadSize` also for another manner. The handle holds then what it held.
#[unsafe(no_mangle)]
pub extern "C" fn p11_console_new(
    alloc: Global,
    kwords: u32,
    lines: u32,
    manner: u32,
    strict: u32,
    saveless: u32,
    talk: u32,
    handle: &mut ConsoleHandle,
) -> i32
    ensures { (status : Status) × (result ≡ number_of_status status)
        × OpensConsole (wished kwords lines manner strict saveless talk) status handle.old.slot.held handle.new.slot.held }
{
    match new_console(alloc, kwords, lines, manner, strict, saveless, talk) {
        Ok(console) => {
            handle.hold(alloc, console);
            Status::Done.number()
        }
        Err(status) => status.number(),
    }
}

/// The lines of the file of this name come next, where nothing is under way: just behind `p11_console_new`. The console asks
/// for the file at its first step.
///
/// # Errors
///
/// The number of a `Status`: `NoMemory`, and nothing changes.
#[unsafe(no_mangle)]
pub extern "C" fn p11_console_open(alloc: Global, handle: &mut ConsoleHandle, name: &[u8]) -> i32
    ensures { OnConsole (λ c status c'. DoneOr status (c' ≡ record c { activity = opening name.now c.activity }) (c' ≡ c)) ⊤
        handle.old.slot.held result handle.new.slot.held }
{
    let Some(mut console) = handle.take(alloc) else {
        return Status::NoMachine.number();
    };
    let status = console.begin_with(alloc, name);
    handle.put(console);
    status.number()
}

/// A line that was typed in an earlier dialogue, for the history, of which it is the newest.
///
/// # Errors
///
/// The number of a `Status`: `NoMemory`, and nothing changes.
#[unsafe(no_mangle)]
pub extern "C" fn p11_console_remember(
    alloc: Global,
    handle: &mut ConsoleHandle,
    line: &[u8],
) -> i32
    ensures { OnConsole (λ c status c'. DoneOr status
        (c' ≡ record c { typist = record c.typist { history = remembered line.now c.typist.history } }) (c' ≡ c)) ⊤
        handle.old.slot.held result handle.new.slot.held }
{
    let Some(mut console) = handle.take(alloc) else {
        return Status::NoMachine.number();
    };
    let status = console.remember(alloc, line);
    handle.put(console);
    status.number()
}

/// Keys come behind those that wait, as a keyboard gives them, or lines of a program, each with LF.
///
/// # Errors
///
/// The number of a `Status`: `NoMemory`, and none of them is taken.
#[unsafe(no_mangle)]
pub extern "C" fn p11_console_keys(alloc: Global, handle: &mut ConsoleHandle, bytes: &[u8]) -> i32
    ensures { OnConsole (λ c status c'. DoneOr status (c' ≡ record c { waiting = c.waiting ++ bytes.now }) (c' ≡ c)) ⊤
        handle.old.slot.held result handle.new.slot.held }
{
    let Some(mut console) = handle.take(alloc) else {
        return Status::NoMachine.number();
    };
    let status = console.keys(bytes);
    handle.put(console);
    status.number()
}

/// No key comes any more: what waits is done, and then the dialogue ends.
///
/// # Errors
///
/// The number of a `Status`.
#[unsafe(no_mangle)]
pub extern "C" fn p11_console_closed(alloc: Global, handle: &mut ConsoleHandle) -> i32
    ensures { OnConsole (λ c status c'. (status ≡ Status.Done) × (c' ≡ record c { is_over = true })) ⊤
        handle.old.slot.held result handle.new.slot.held }
{
    let Some(mut console) = handle.take(alloc) else {
        return Status::NoMachine.number();
    };
    console.closed();
    handle.put(console);
    Status::Done.number()
}

/// The keyboard has nothing more for now: an ESC that stands alone was no key.
///
/// # Errors
///
/// The number of a `Status`.
#[unsafe(no_mangle)]
pub extern "C" fn p11_console_paused(alloc: Global, handle: &mut ConsoleHandle) -> i32
    ensures { OnConsole (λ c status c'. (status ≡ Status.Done) × (c' ≡ record c { typist = rested c.typist })) ⊤
        handle.old.slot.held result handle.new.slot.held }
{
    let Some(mut console) = handle.take(alloc) else {
        return Status::NoMachine.number();
    };
    console.paused();
    handle.put(console);
    Status::Done.number()
}

/// The line clock ticks, once the machine can take that.
///
/// # Errors
///
/// The number of a `Status`.
#[unsafe(no_mangle)]
pub extern "C" fn p11_console_ticked(alloc: Global, handle: &mut ConsoleHandle) -> i32
    ensures { OnConsole (λ c status c'. (status ≡ Status.Done) × (c' ≡ record c { ticks = min (c.ticks + 1) 4294967295 })) ⊤
        handle.old.slot.held result handle.new.slot.held }
{
    let Some(mut console) = handle.take(alloc) else {
        return Status::NoMachine.number();
    };
    console.ticked();
    handle.put(console);
    Status::Done.number()
}

/// The screen has so many columns; 80 before it is told.
///
/// # Errors
///
/// The number of a `Status`.
#[unsafe(no_mangle)]
pub extern "C" fn p11_console_resized(
    alloc: Global,
    handle: &mut ConsoleHandle,
    columns: usize,
) -> i32
    ensures { OnConsole (λ c status c'. (status ≡ Status.Done) × (c' ≡ c)) ⊤
        handle.old.slot.held result handle.new.slot.held }
{
    let Some(mut console) = handle.take(alloc) else {
        return Status::NoMachine.number();
    };
    console.resized(columns);
    handle.put(console);
    Status::Done.number()
}

/// Shows the line again that is typed, as when the terminal was another program's.
///
/// # Errors
///
/// The number of a `Status`.
#[unsafe(no_mangle)]
pub extern "C" fn p11_console_redrawn(alloc: Global, handle: &mut ConsoleHandle) -> i32
    ensures { OnConsole (λ c status c'. (status ≡ Status.Done)
        × (Says c.screen c'.screen × (c' ≡ record c { screen = c'.screen }))) ⊤
        handle.old.slot.held result handle.new.slot.held }
{
    let Some(mut console) = handle.take(alloc) else {
        return Status::NoMachine.number();
    };
    console.redrawn();
    handle.put(console);
    Status::Done.number()
}

/// Does one thing, and tells what the console wants: takes a key, does a line, makes a slice of a run of at most so many
/// turns, presses keys, shows what was typed, or tells an answer.
///
/// `want`: 0 a further step; 1 keys; 2 keys or a tick, since the machine idles; 3 memory, for want of which nothing was done;
/// 4 the bytes of the file that `p11_console_name` tells; 5 that the bytes of `p11_console_image` are written to it; 6 names of
/// files that begin as `p11_console_front` tells; 7 nothing more, since the dialogue is over. `turns` below 1 are 1.
///
/// # Errors
///
/// The number of a `Status`, and nothing is written.
#[unsafe(no_mangle)]
pub extern "C" fn p11_console_step(
    alloc: Global,
    handle: &mut ConsoleHandle,
    turns: u32,
    want: &mut u32,
) -> i32
    ensures { OnConsole (λ c status c'. (status ≡ Status.Done) × StepsTelling turns c want.new c') (want.new ≡ want.old)
        handle.old.slot.held result handle.new.slot.held }
{
    let Some(mut console) = handle.take(alloc) else {
        return Status::NoMachine.number();
    };
    let wanted = console.step(alloc, turns);
    *want = number_of_want(wanted);
    handle.put(console);
    Status::Done.number()
}

/// Hands out the bytes for the screen that weren't taken, from their front, as far as the buffer has room; it is told how many
/// they are. They stay until `p11_console_shown` takes them.
///
/// # Errors
///
/// The number of a `Status`, and nothing is written.
#[unsafe(no_mangle)]
pub extern "C" fn p11_console_screen(
    alloc: Global,
    handle: &mut ConsoleHandle,
    bytes: &mut [u8],
    bytes_length: &mut usize,
) -> i32
    ensures { OnConsole (λ c status c'. (status ≡ Status.Done) × (c' ≡ c)
        × HandsFront c.screen (lent bytes.old bytes_length.old) (lent bytes.new bytes_length.new)) (lent bytes.new bytes_length.new ≡ lent bytes.old bytes_length.old)
        handle.old.slot.held result handle.new.slot.held }
{
    let Some(console) = handle.take(alloc) else {
        return Status::NoMachine.number();
    };
    hand_front(console.screen(), bytes, bytes_length);
    handle.put(console);
    Status::Done.number()
}

/// So many bytes of those for the screen are taken, from their front.
///
/// # Errors
///
/// The number of a `Status`: `TooMany` where there are fewer, and nothing changes.
#[unsafe(no_mangle)]
pub extern "C" fn p11_console_shown(alloc: Global, handle: &mut ConsoleHandle, count: usize) -> i32
    ensures { OnConsole (λ c status c'. TakesFront status count c.screen
        (c' ≡ record c { screen = drop count c.screen }) (c' ≡ c)) ⊤
        handle.old.slot.held result handle.new.slot.held }
{
    let Some(mut console) = handle.take(alloc) else {
        return Status::NoMachine.number();
    };
    let status = console.shown(count);
    handle.put(console);
    status.number()
}

/// Hands out the bytes for the record that weren't taken, from their front, as far as the buffer has room; it is told how many
/// they are. They stay until `p11_console_recorded` takes them.
///
/// # Errors
///
/// The number of a `Status`, and nothing is written.
#[unsafe(no_mangle)]
pub extern "C" fn p11_console_record(
    alloc: Global,
    handle: &mut ConsoleHandle,
    bytes: &mut [u8],
    bytes_length: &mut usize,
) -> i32
    ensures { OnConsole (λ c status c'. (status ≡ Status.Done) × (c' ≡ c)
        × HandsFront c.journal (lent bytes.old bytes_length.old) (lent bytes.new bytes_length.new)) (lent bytes.new bytes_length.new ≡ lent bytes.old bytes_length.old)
        handle.old.slot.held result handle.new.slot.held }
{
    let Some(console) = handle.take(alloc) else {
        return Status::NoMachine.number();
    };
    hand_front(console.journal(), bytes, bytes_length);
    handle.put(console);
    Status::Done.number()
}

/// So many bytes of those for the record are taken, from their front.
///
/// # Errors
///
/// The number of a `Status`: `TooMany` where there are fewer, and nothing changes.
#[unsafe(no_mangle)]
pub extern "C" fn p11_console_recorded(
    alloc: Global,
    handle: &mut ConsoleHandle,
    count: usize,
) -> i32
    ensures { OnConsole (λ c status c'. TakesFront status count c.journal
        (c' ≡ record c { journal = drop count c.journal }) (c' ≡ c)) ⊤
        handle.old.slot.held result handle.new.slot.held }
{
    let Some(mut console) = handle.take(alloc) else {
        return Status::NoMachine.number();
    };
    let status = console.recorded(count);
    handle.put(console);
    status.number()
}

/// Hands out the bytes for the history's file that weren't taken, from their front, as far as the buffer has room; it is told how many
/// they are. They stay until `p11_console_kept` takes them.
///
/// # Errors
///
/// The number of a `Status`, and nothing is written.
#[unsafe(no_mangle)]
pub extern "C" fn p11_console_past(
    alloc: Global,
    handle: &mut ConsoleHandle,
    bytes: &mut [u8],
    bytes_length: &mut usize,
) -> i32
    ensures { OnConsole (λ c status c'. (status ≡ Status.Done) × (c' ≡ c)
        × HandsFront c.past (lent bytes.old bytes_length.old) (lent bytes.new bytes_length.new)) (lent bytes.new bytes_length.new ≡ lent bytes.old bytes_length.old)
        handle.old.slot.held result handle.new.slot.held }
{
    let Some(console) = handle.take(alloc) else {
        return Status::NoMachine.number();
    };
    hand_front(console.past(), bytes, bytes_length);
    handle.put(console);
    Status::Done.number()
}

/// So many bytes of those for the history's file are taken, from their front.
///
/// # Errors
///
/// The number of a `Status`: `TooMany` where there are fewer, and nothing changes.
#[unsafe(no_mangle)]
pub extern "C" fn p11_console_kept(alloc: Global, handle: &mut ConsoleHandle, count: usize) -> i32
    ensures { OnConsole (λ c status c'. TakesFront status count c.past
        (c' ≡ record c { past = drop count c.past }) (c' ≡ c)) ⊤
        handle.old.slot.held result handle.new.slot.held }
{
    let Some(mut console) = handle.take(alloc) else {
        return Status::NoMachine.number();
    };
    let status = console.kept(count);
    handle.put(console);
    status.number()
}

/// Hands out the bytes for the standard error that weren't taken: what is said of a script that is all.
///
/// # Errors
///
/// The number of a `Status`. Too small a buffer is told with the length that is wanted, and nothing else is written.
#[unsafe(no_mangle)]
pub extern "C" fn p11_console_errors(
    alloc: Global,
    handle: &mut ConsoleHandle,
    bytes: &mut [u8],
    bytes_length: &mut usize,
) -> i32
    ensures { OnConsole (λ c status c'. (c' ≡ c) × ((text : List ℕ) × HandsText status text
        (lent bytes.old bytes_length.old) (lent bytes.new bytes_length.new))) (lent bytes.new bytes_length.new ≡ lent bytes.old bytes_length.old)
        handle.old.slot.held result handle.new.slot.held }
{
    let Some(console) = handle.take(alloc) else {
        return Status::NoMachine.number();
    };
    let status = hand_text(console.errors(), bytes, bytes_length);
    handle.put(console);
    status.number()
}

/// All that is for the standard error is taken.
///
/// # Errors
///
/// The number of a `Status`.
#[unsafe(no_mangle)]
pub extern "C" fn p11_console_told(alloc: Global, handle: &mut ConsoleHandle) -> i32
    ensures { OnConsole (λ c status c'. (status ≡ Status.Done) × (c' ≡ c)) ⊤
        handle.old.slot.held result handle.new.slot.held }
{
    let Some(mut console) = handle.take(alloc) else {
        return Status::NoMachine.number();
    };
    console.told();
    handle.put(console);
    Status::Done.number()
}

/// Hands out the name of the file that is wanted, or that the image is for.
///
/// # Errors
///
/// The number of a `Status`: `NoFile` where there is none, and nothing is written. Too small a buffer is told with the length
/// that is wanted, and nothing else is written.
#[unsafe(no_mangle)]
pub extern "C" fn p11_console_name(
    alloc: Global,
    handle: &mut ConsoleHandle,
    bytes: &mut [u8],
    bytes_length: &mut usize,
) -> i32
    ensures { OnConsole (λ c status c'. (c' ≡ c) × HandsWanted status (wanted c.activity)
        (lent bytes.old bytes_length.old) (lent bytes.new bytes_length.new)) (lent bytes.new bytes_length.new ≡ lent bytes.old bytes_length.old)
        handle.old.slot.held result handle.new.slot.held }
{
    let Some(console) = handle.take(alloc) else {
        return Status::NoMachine.number();
    };
    let status = hand_wanted(console.name(), bytes, bytes_length);
    handle.put(console);
    status.number()
}

/// Hands out the bytes that the file is to have.
///
/// # Errors
///
/// The number of a `Status`: `NoFile` where there is none, and nothing is written. Too small a buffer is told with the length
/// that is wanted, and nothing else is written.
#[unsafe(no_mangle)]
pub extern "C" fn p11_console_image(
    alloc: Global,
    handle: &mut ConsoleHandle,
    bytes: &mut [u8],
    bytes_length: &mut usize,
) -> i32
    ensures { OnConsole (λ c status c'. (c' ≡ c) × HandsWanted status (image_in c.activity)
        (lent bytes.old bytes_length.old) (lent bytes.new bytes_length.new)) (lent bytes.new bytes_length.new ≡ lent bytes.old bytes_length.old)
        handle.old.slot.held result handle.new.slot.held }
{
    let Some(console) = handle.take(alloc) else {
        return Status::NoMachine.number();
    };
    let status = hand_wanted(console.image(), bytes, bytes_length);
    handle.put(console);
    status.number()
}

/// Hands out the word at the cursor, with which the names of files have to begin that are wanted.
///
/// # Errors
///
/// The number of a `Status`. Too small a buffer is told with the length that is wanted, and nothing else is written.
#[unsafe(no_mangle)]
pub extern "C" fn p11_console_front(
    alloc: Global,
    handle: &mut ConsoleHandle,
    bytes: &mut [u8],
    bytes_length: &mut usize,
) -> i32
    ensures { OnConsole (λ c status c'. (c' ≡ c) × HandsText status (word_of c.typist.editor.line)
        (lent bytes.old bytes_length.old) (lent bytes.new bytes_length.new)) (lent bytes.new bytes_length.new ≡ lent bytes.old bytes_length.old)
        handle.old.slot.held result handle.new.slot.held }
{
    let Some(console) = handle.take(alloc) else {
        return Status::NoMachine.number();
    };
    let status = hand_text(console.front(), bytes, bytes_length);
    handle.put(console);
    status.number()
}

/// Tells of the file that is wanted, or that is to be written, 1 for yes: whether one of its name that is there may be written
/// over, and whether it is a pack's, which a later `save` may write over unasked.
///
/// # Errors
///
/// The number of a `Status`, and nothing is written.
#[unsafe(no_mangle)]
pub extern "C" fn p11_console_request(
    alloc: Global,
    handle: &mut ConsoleHandle,
    replace: &mut u32,
    pack: &mut u32,
) -> i32
    ensures { OnConsole (λ c status c'. (status ≡ Status.Done) × (c' ≡ c)
        × (replace.new ≡ number_of_bool (may_replace c.activity)) × (pack.new ≡ number_of_bool (is_pack c.activity))) ((replace.new ≡ replace.old) × (pack.new ≡ pack.old))
        handle.old.slot.held result handle.new.slot.held }
{
    let Some(console) = handle.take(alloc) else {
        return Status::NoMachine.number();
    };
    *replace = number_of_bool(console.may_replace());
    *pack = number_of_bool(console.is_pack());
    handle.put(console);
    Status::Done.number()
}

/// Gives the bytes of the file that is wanted. Where none is wanted nothing is done.
///
/// # Errors
///
/// The number of a `Status`: `NoMemory`, and nothing changes; the file is wanted still.
#[unsafe(no_mangle)]
pub extern "C" fn p11_console_fetched(
    alloc: Global,
    handle: &mut ConsoleHandle,
    bytes: &[u8],
) -> i32
    ensures { OnConsole (λ c status c'. DoneOr status (Gives (Ok bytes.now) c.activity c c') (c' ≡ c)) ⊤
        handle.old.slot.held result handle.new.slot.held }
{
    let Some(mut console) = handle.take(alloc) else {
        return Status::NoMachine.number();
    };
    let status = console.fetched(alloc, bytes);
    handle.put(console);
    status.number()
}

/// Says why the bytes of the file that is wanted can't be had, by a number of `host_words.rt`. Where none is wanted nothing is
/// done.
///
/// # Errors
///
/// The number of a `Status`.
#[unsafe(no_mangle)]
pub extern "C" fn p11_console_missed(alloc: Global, handle: &mut ConsoleHandle, trouble: u32) -> i32
    ensures { OnConsole (λ c status c'. (status ≡ Status.Done) × Gives (Err (error_of trouble)) c.activity c c') ⊤
        handle.old.slot.held result handle.new.slot.held }
{
    let Some(mut console) = handle.take(alloc) else {
        return Status::NoMachine.number();
    };
    console.missed(alloc, trouble);
    handle.put(console);
    Status::Done.number()
}

/// Says what became of the file that was to be written: 0, it is; 1, one of its name is there; else why it can't be, by a
/// number of `host_words.rt`. Where none was to be written nothing is done.
///
/// # Errors
///
/// The number of a `Status`.
#[unsafe(no_mangle)]
pub extern "C" fn p11_console_put(alloc: Global, handle: &mut ConsoleHandle, trouble: u32) -> i32
    ensures { OnConsole (λ c status c'. (status ≡ Status.Done) × TakesBy trouble c c') ⊤
        handle.old.slot.held result handle.new.slot.held }
{
    let Some(mut console) = handle.take(alloc) else {
        return Status::NoMachine.number();
    };
    console.written(alloc, trouble);
    handle.put(console);
    Status::Done.number()
}

/// Gives names of files that may stand at the cursor, a 0 between each and the next, of a folder with `/` behind it. Where none
/// are wanted nothing is done.
///
/// # Errors
///
/// The number of a `Status`: `NoMemory`, and nothing changes.
#[unsafe(no_mangle)]
pub extern "C" fn p11_console_names(alloc: Global, handle: &mut ConsoleHandle, names: &[u8]) -> i32
    ensures { OnConsole (λ c status c'. DoneOr status (Names c.activity c c') (c' ≡ c)) ⊤
        handle.old.slot.held result handle.new.slot.held }
{
    let Some(mut console) = handle.take(alloc) else {
        return Status::NoMachine.number();
    };
    let status = console.names(alloc, names);
    handle.put(console);
    status.number()
}

/// Tells the status of a program that holds this dialogue, once it is over: 0 or 1.
///
/// # Errors
///
/// The number of a `Status`, and nothing is written.
#[unsafe(no_mangle)]
pub extern "C" fn p11_console_status(
    alloc: Global,
    handle: &mut ConsoleHandle,
    exit: &mut u32,
) -> i32
    ensures { OnConsole (λ c status c'. (status ≡ Status.Done) × (c' ≡ c) × (exit.new ≡ status_of c)) (exit.new ≡ exit.old)
        handle.old.slot.held result handle.new.slot.held }
{
    let Some(console) = handle.take(alloc) else {
        return Status::NoMachine.number();
    };
    *exit = console.status();
    handle.put(console);
    Status::Done.number()
}

/// Tells the registers of the console's machine.
///
/// # Errors
///
/// The number of a `Status`, and nothing is written.
#[unsafe(no_mangle)]
pub extern "C" fn p11_console_regs(
    alloc: Global,
    handle: &mut ConsoleHandle,
    regs: &mut Registers,
) -> i32
    ensures { OnConsole (λ c status c'. (status ≡ Status.Done) × (c' ≡ c) × (regs.new ≡ told_registers c.machine))
        (regs.new ≡ regs.old) handle.old.slot.held result handle.new.slot.held }
{
    let Some(console) = handle.take(alloc) else {
        return Status::NoMachine.number();
    };
    *regs = tell_registers(console.panel());
    handle.put(console);
    Status::Done.number()
}

/// Hands out the lines that `device` answers: the clock, the console line, the disk controller, each of the eight drives,
/// memory management and who asks for the bus.
///
/// # Errors
///
/// The number of a `Status`: `NoMemory`, and nothing is written. Too small a buffer is told with the length that is wanted, and
/// nothing else is written.
#[unsafe(no_mangle)]
pub extern "C" fn p11_console_devices(
    alloc: Global,
    handle: &mut ConsoleHandle,
    text: &mut [u8],
    text_length: &mut usize,
) -> i32
    ensures { OnConsole (λ c status c'. (c' ≡ c) × HandsDevices status c.machine
        (lent text.old text_length.old) (lent text.new text_length.new)) (lent text.new text_length.new ≡ lent text.old text_length.old)
        handle.old.slot.held result handle.new.slot.held }
{
    let Some(console) = handle.take(alloc) else {
        return Status::NoMachine.number();
    };
    let status = hand_devices(alloc, console.panel(), text, text_length);
    handle.put(console);
    status.number()
}

/// Drops the console that the handle holds, with its machine, if it holds one.
#[unsafe(no_mangle)]
pub extern "C" fn p11_console_drop(alloc: Global, handle: &mut ConsoleHandle)
    ensures { handle.new.slot.held ≡ None }
{
    drop(handle.take(alloc));
}
