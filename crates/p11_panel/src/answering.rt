//! Does one line of the console's language: finds its file in the store, does its command, and gives the answer.
ghost use Rattle.std.specs.Prelude.{◌≡◌};
ghost use Rattle.p11_lines.specs.Grammar.{line_from};
ghost use Rattle.p11_panel.specs.Commands.{CommandStep};
ghost use Rattle.p11_panel.specs.Session.{is_silent, has_answer, with_store, LineDoes};
ghost use Rattle.p11_panel.specs.Session.{Asks, Obeys, OnFile, Keeps};
ghost use Rattle.p11_lines.specs.declared.answer.Answer.{Answer};

use crate::command::Command;
use crate::panel::Panel;
use p11_lines::{Answer, Bytes, Fault, Line, parse_line};
use p11_store::{Store, StoreError};
use std::alloc::Allocator;

/// Whether a line is blank or a remark.
#[tactic(auto, unfolding(crate::specs::Session::is_silent))]
fn silent(line: &[u8]) -> bool
    ensures { result ≡ is_silent line.now }
{
    let mut rest = line;
    while let [first, after @ ..] = rest {
        if *first != b' ' && *first != b'\t' {
            return *first == b'#';
        }
        rest = after;
    }
    true
}

/// Does one command, which ends with it.
fn done<A: Allocator + Copy>(alloc: A, panel: &mut Panel<A>, command: Command<A>) -> Answer<A>
    ensures { CommandStep panel.old command result panel.new }
{
    panel.act(alloc, &command)
}

/// Mounts the bytes under a name.
fn mount_file<A: Allocator + Copy, S: Store>(
    alloc: A,
    panel: &mut Panel<A>,
    store: &mut S,
    drive: u32,
    name: &[u8],
    protect: bool,
) -> Answer<A>
    ensures { OnFile name.now (λ image. Command.Mount drive image protect) (with_store panel.old (S.state store.old)) result
        (with_store panel.new (S.state store.new)) }
{
    match store.fetch(alloc, name) {
        Ok(image) => {
            let image = Bytes::from_vec(image);
            done(
                alloc,
                panel,
                Command::Mount {
                    drive,
                    image,
                    protect,
                },
            )
        }
        Err(StoreError::Refused) => Answer::Refused(Fault::StoreFault),
        Err(StoreError::NoMemory) => Answer::Refused(Fault::NoMemory),
    }
}

/// Loads the tape under a name.
fn load_file<A: Allocator + Copy, S: Store>(
    alloc: A,
    panel: &mut Panel<A>,
    store: &mut S,
    name: &[u8],
) -> Answer<A>
    ensures { OnFile name.now (λ tape. Command.Load tape) (with_store panel.old (S.state store.old)) result
        (with_store panel.new (S.state store.new)) }
{
    match store.fetch(alloc, name) {
        Ok(tape) => {
            let tape = Bytes::from_vec(tape);
            done(alloc, panel, Command::Load { tape })
        }
        Err(StoreError::Refused) => Answer::Refused(Fault::StoreFault),
        Err(StoreError::NoMemory) => Answer::Refused(Fault::NoMemory),
    }
}

/// Puts what a pack holds under a name.
fn keep<A: Allocator, S: Store>(store: &mut S, name: &[u8], image: &[u8]) -> Answer<A>
    ensures { Keeps name.now (Answer.Image image.now) (S.state store.old) result (S.state store.new) }
{
    match store.put(name, image) {
        Ok(()) => Answer::Done,
        Err(_) => Answer::Refused(Fault::StoreFault),
    }
}

/// Saves the pack on a drive under a name.
fn save_file<A: Allocator + Copy, S: Store>(
    alloc: A,
    panel: &Panel<A>,
    store: &mut S,
    drive: u32,
    name: &[u8],
) -> Answer<A>
    ensures { (shown : Answer A) × CommandStep panel.now (Command.Save drive) shown panel.now
        × Keeps name.now shown (S.state store.old) result (S.state store.new) }
{
    match panel.image(alloc, drive) {
        Ok(image) => keep(store, name, image.as_slice()),
        Err(fault) => Answer::Refused(fault),
    }
}

/// Does a line of the console's language on a machine and a store of files (chapter 23 of the book). A line that names a file calls the store
/// once, by that name; all others leave it. What is refused comes as the answer.
#[tactic(auto, unfolding(crate::specs::Session::Obeys))]
pub fn obey<A: Allocator + Copy, S: Store>(
    alloc: A,
    panel: &mut Panel<A>,
    store: &mut S,
    line: Line<A>,
) -> Answer<A>
    ensures { Obeys line (with_store panel.old (S.state store.old)) result
        (with_store panel.new (S.state store.new)) }
{
    match line {
        Line::Mount {
            drive,
            name,
            protect,
        } => { mount_file(alloc, panel, store, drive, name.as_slice(), protect) }
        Line::Unmount { drive } => done(alloc, panel, Command::Unmount { drive }),
        Line::Save { drive, name } => save_file(alloc, panel, store, drive, name.as_slice()),
        Line::Changed { drive } => done(alloc, panel, Command::Changed { drive }),
        Line::Load { name } => load_file(alloc, panel, store, name.as_slice()),
        Line::Examine { address, count } => {
            done(alloc, panel, Command::Examine { address, count })
        }
        Line::Deposit { address, words } => {
            done(alloc, panel, Command::Deposit { address, words })
        }
        Line::Start { address } => done(alloc, panel, Command::Start { address }),
        Line::Key { text } => done(alloc, panel, Command::Key { text }),
        Line::Tick => done(alloc, panel, Command::Tick),
        Line::Clock { period } => done(alloc, panel, Command::Clock { period }),
        Line::Switches { word } => done(alloc, panel, Command::Switches { word }),
        Line::Set { register, value } => done(alloc, panel, Command::Set { register, value }),
        Line::Step { turns } => done(alloc, panel, Command::Step { turns }),
        Line::Continue { turns } => done(alloc, panel, Command::Continue { turns }),
        Line::Flush => done(alloc, panel, Command::Flush),
        Line::Regs => done(alloc, panel, Command::Regs),
        Line::Device => done(alloc, panel, Command::Device),
    }
}

/// Does a line that has an answer.
fn ask<A: Allocator + Copy, S: Store>(
    alloc: A,
    panel: &mut Panel<A>,
    store: &mut S,
    line: &[u8],
) -> Answer<A>
    ensures { Asks (line_from line.now) (with_store panel.old (S.state store.old)) result
        (with_store panel.new (S.state store.new)) }
{
    match parse_line(alloc, line) {
        Ok(line) => obey(alloc, panel, store, line),
        Err(fault) => Answer::Refused(fault),
    }
}

/// Does a line of a script: its answer, or none where it is blank or a remark.
#[tactic(auto, unfolding(crate::specs::Session::LineDoes, crate::specs::Session::has_answer))]
pub(crate) fn do_line<A: Allocator + Copy, S: Store>(
    alloc: A,
    panel: &mut Panel<A>,
    store: &mut S,
    line: &[u8],
) -> Option<Answer<A>>
    ensures { LineDoes line.now (with_store panel.old (S.state store.old)) result
        (with_store panel.new (S.state store.new)) }
{
    if line.len() > 4096 {
        return Some(ask(alloc, panel, store, line));
    }
    if silent(line) {
        return None;
    }
    Some(ask(alloc, panel, store, line))
}
