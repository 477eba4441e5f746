// A line that is done.
ghost use Rattle.std.specs.Prelude.{◌≡◌, [], IfOk, OnErr};
ghost use Rattle.p11_panel.specs.Session.{is_silent, has_answer};
ghost use Rattle.p11_panel.specs.Commands.{CommandStep};
ghost use Rattle.p11_dialogue.specs.LineKinds.{script_name};
ghost use Rattle.p11_console.specs.Tries.{Tries, TriesLine, TriesRun, TriesUnmount, Acts, Saves, activity_saved, run_begun, command_of, DoesLine};
ghost use Rattle.p11_dialogue.specs.Record.{ended};

use crate::files::file_in;
use crate::reasons::note_for;
use crate::slices::run_command;
use p11_dialogue::{
    Activity, LineKind, Note, Subject, Text, Topic, Trying, kind_of_line, note_of, note_of_tape,
    record_line, record_unmount, recorded, run_of, script_name, talk_of, verb_and_rest,
    why_no_line,
};
use p11_lines::{Answer, Bytes, Fault, Line, NoMemory, parse_line};
use p11_panel::{Command, MOST_TURNS, Panel};
use p11_phrases::{Meant, parted, word_meant};
use std::alloc::Allocator;

/// Whether a line is blank or a remark.
#[tactic(auto, unfolding(p11_panel::specs::Session::is_silent))]
fn is_silent(line: &[u8]) -> bool
    ensures { result ≡ is_silent line.now }
{
    let mut rest = line;
    while let [first, after @ ..] = rest {
        if *first != b' ' && *first != b'\t' {
            return *first == b'#';
        }
        rest = after;
    }
    true
}

/// A refusal, of which nothing is recorded.
pub(crate) fn refused<A: Allocator>(alloc: A, fault: Fault, note: Note<A>) -> Activity<A>
    ensures { result ≡ Activity.Telling (Answer.Refused fault) [] tt }
{
    Activity::Telling {
        answer: Answer::Refused(fault),
        text: Bytes::from_vec(Vec::new(alloc)),
        note,
    }
}

/// What the line of a run brings under way.
#[tactic(auto, unfolding(crate::specs::Tries::run_begun))]
pub(crate) fn begin_run<A: Allocator + Copy>(alloc: A, turns: u32, until_idle: bool) -> Activity<A>
    ensures { result ≡ run_begun turns until_idle }
{
    if turns == 0 || turns > MOST_TURNS {
        return refused(alloc, Fault::TooMany, note_of(alloc, Fault::TooMany));
    }
    Activity::Running(run_of(turns, until_idle))
}

/// The command of a line that makes no run, names no file and takes no pack off; and of another line that one.
#[tactic(auto, unfolding(crate::specs::Tries::command_of))]
fn command<A: Allocator>(line: Line<A>) -> Result<Command<A>, Line<A>>
    ensures { result ≡ command_of line }
{
    match line {
        Line::Changed { drive } => Ok(Command::Changed { drive }),
        Line::Examine { address, count } => Ok(Command::Examine { address, count }),
        Line::Deposit { address, words } => Ok(Command::Deposit { address, words }),
        Line::Start { address } => Ok(Command::Start { address }),
        Line::Key { text } => Ok(Command::Key { text }),
        Line::Tick => Ok(Command::Tick),
        Line::Clock { period } => Ok(Command::Clock { period }),
        Line::Switches { word } => Ok(Command::Switches { word }),
        Line::Set { register, value } => Ok(Command::Set { register, value }),
        Line::Flush => Ok(Command::Flush),
        Line::Regs => Ok(Command::Regs),
        Line::Device => Ok(Command::Device),
        other => Err(other),
    }
}

/// What is said behind an answer.
fn note_behind<A: Allocator + Copy>(alloc: A, answer: &Answer<A>) -> Note<A> {
    match answer {
        Answer::Refused(fault) => note_of(alloc, *fault),
        _ => Note::none(),
    }
}

/// What is said behind the answer of a command: of a tape also what is wrong with its bytes.
fn note_on<A: Allocator + Copy>(alloc: A, answer: &Answer<A>, command: &Command<A>) -> Note<A> {
    match command {
        Command::Load { tape } => match note_of_tape(alloc, tape.as_slice()) {
            Some(note) => note,
            None => note_behind(alloc, answer),
        },
        _ => match answer {
            Answer::Refused(fault) => note_for(alloc, *fault, command),
            _ => Note::none(),
        },
    }
}

/// Does a command, whose line has this text in the record.
#[tactic(auto, unfolding(crate::specs::Tries::Acts))]
pub(crate) fn act<A: Allocator + Copy>(
    alloc: A,
    panel: &mut Panel<A>,
    command: Command<A>,
    text: Bytes<A>,
) -> Activity<A>
    ensures { Acts command text panel.old result panel.new }
{
    let answer = panel.act(alloc, &command);
    let text = recorded(alloc, &answer, text);
    let note = note_on(alloc, &answer, &command);
    Activity::Telling { answer, text, note }
}

/// That a line writes no file.
fn unwritten<A: Allocator + Copy>(alloc: A, line: &Line<A>) -> Note<A> {
    let mut name = Text::new(alloc);
    name.add(file_in(line));
    let mut text = Text::new(alloc);
    text.add(b"nothing is written: --no-save");
    Note::unwritten(text.into_vec(), Bytes::from_vec(name.into_vec()))
}

/// What comes behind an answer of SAVE.
#[tactic(auto, unfolding(crate::specs::Tries::activity_saved))]
fn activity_saved<A: Allocator + Copy>(
    alloc: A,
    how: Trying,
    line: Line<A>,
    text: Bytes<A>,
    answer: Answer<A>,
) -> Activity<A>
    ensures { result ≡ activity_saved how line text answer }
{
    match answer {
        Answer::Image(image) => {
            if how.is_saveless {
                return Activity::Telling {
                    answer: Answer::Done,
                    text: Bytes::from_vec(Vec::new(alloc)),
                    note: unwritten(alloc, &line),
                };
            }
            Activity::Putting {
                line,
                image,
                text,
                is_agreed: !how.is_asking,
            }
        }
        answer => {
            let text = recorded(alloc, &answer, text);
            let note = note_behind(alloc, &answer);
            Activity::Telling { answer, text, note }
        }
    }
}

/// Does SAVE, up to the file.
#[tactic(auto, unfolding(crate::specs::Tries::Saves))]
fn save<A: Allocator + Copy>(
    alloc: A,
    panel: &mut Panel<A>,
    how: Trying,
    drive: u32,
    line: Line<A>,
    text: Bytes<A>,
) -> Activity<A>
    ensures { Saves how drive line text panel.old result panel.new }
{
    let answer = panel.act(alloc, &Command::Save { drive });
    activity_saved(alloc, how, line, text, answer)
}

/// Does the line of a run.
#[tactic(auto, unfolding(crate::specs::Tries::TriesRun))]
fn try_run<A: Allocator + Copy>(
    alloc: A,
    panel: &mut Panel<A>,
    how: Trying,
    line: Line<A>,
    turns: u32,
    until_idle: bool,
) -> Result<Activity<A>, NoMemory>
    ensures ok { IfOk result (λ activity. TriesRun how line turns until_idle panel.old activity panel.new) }
    ensures err { OnErr result (panel.new ≡ panel.old) }
{
    if how.is_whole {
        let text = record_line(alloc, &line)?;
        return Ok(act(alloc, panel, run_command(until_idle, turns), text));
    }
    Ok(begin_run(alloc, turns, until_idle))
}

/// Does UNMOUNT, or leaves it to a step that may ask a person first.
#[tactic(auto, unfolding(crate::specs::Tries::TriesUnmount))]
fn try_unmount<A: Allocator + Copy>(
    alloc: A,
    panel: &mut Panel<A>,
    how: Trying,
    drive: u32,
) -> Result<Activity<A>, NoMemory>
    ensures ok { IfOk result (λ activity. TriesUnmount how drive panel.old activity panel.new) }
    ensures err { OnErr result (panel.new ≡ panel.old) }
{
    if how.is_asking {
        return Ok(Activity::Unmounting {
            drive,
            is_agreed: false,
        });
    }
    let text = record_unmount(alloc, drive)?;
    Ok(act(alloc, panel, Command::Unmount { drive }, text))
}

/// Does a line of the language.
#[tactic(auto, unfolding(crate::specs::Tries::TriesLine))]
fn try_line<A: Allocator + Copy>(
    alloc: A,
    panel: &mut Panel<A>,
    how: Trying,
    line: Line<A>,
) -> Result<Activity<A>, NoMemory>
    ensures ok { IfOk result (λ activity. TriesLine how line panel.old activity panel.new) }
    ensures err { OnErr result (panel.new ≡ panel.old) }
{
    match line {
        Line::Step { turns } => try_run(alloc, panel, how, Line::Step { turns }, turns, false),
        Line::Continue { turns } => {
            try_run(alloc, panel, how, Line::Continue { turns }, turns, true)
        }
        Line::Unmount { drive } => try_unmount(alloc, panel, how, drive),
        Line::Save { drive, name } => {
            let line = Line::Save { drive, name };
            let text = record_line(alloc, &line)?;
            Ok(save(alloc, panel, how, drive, line, text))
        }
        line => {
            let text = record_line(alloc, &line)?;
            match command(line) {
                Ok(command) => Ok(act(alloc, panel, command, text)),
                Err(line) => Ok(Activity::Fetching { line, text }),
            }
        }
    }
}

/// Does a text that may be a line of the language. For want of memory nothing is done.
#[tactic(auto, unfolding(crate::specs::Tries::Tries, p11_panel::specs::Session::has_answer))]
pub(crate) fn try_text<A: Allocator + Copy>(
    alloc: A,
    panel: &mut Panel<A>,
    how: Trying,
    text: &[u8],
) -> Result<Activity<A>, NoMemory>
    ensures ok { IfOk result (λ activity. Tries how text.now panel.old activity panel.new) }
    ensures err { OnErr result (panel.new ≡ panel.old) }
{
    if text.len() <= 4096 && is_silent(text) {
        return Ok(Activity::Free);
    }
    match parse_line(alloc, text) {
        Ok(line) => try_line(alloc, panel, how, line),
        Err(Fault::NoMemory) => Err(NoMemory),
        Err(fault) => Ok(refused(alloc, fault, why_no_line(alloc, text))),
    }
}

/// What help is asked for.
fn topic_of(line: &[u8]) -> Topic {
    let word = parted(verb_and_rest(line).1).0;
    if word.is_empty() {
        return Topic::new(Subject::All);
    }
    match word_meant(word) {
        Meant::Word(place) => Topic::new(Subject::Word(place)),
        Meant::Several | Meant::Nothing => Topic::new(Subject::Unknown),
    }
}

/// The lines of a file are asked for.
fn open_script<A: Allocator>(alloc: A, line: &[u8]) -> Result<Activity<A>, NoMemory>
    ensures { IfOk result (λ activity. activity ≡ Activity.Opening (script_name line.now)) }
{
    let mut name = Vec::new(alloc);
    name.extend_from_slice(script_name(line))?;
    Ok(Activity::Opening {
        name: Bytes::from_vec(name),
    })
}

/// Does a line that was typed, or that a typed one means. For want of memory nothing is done.
#[tactic(auto, unfolding(crate::specs::Tries::DoesLine))]
pub(crate) fn do_line<A: Allocator + Copy>(
    alloc: A,
    panel: &mut Panel<A>,
    how: Trying,
    line: &[u8],
) -> Result<Activity<A>, NoMemory>
    ensures ok { IfOk result (λ activity. DoesLine how line.now panel.old activity panel.new) }
    ensures err { OnErr result (panel.new ≡ panel.old) }
{
    match kind_of_line(line) {
        LineKind::Talk => Ok(Activity::Running(talk_of())),
        LineKind::Once => Ok(begin_run(alloc, 1, false)),
        LineKind::Quit => Ok(Activity::Leaving),
        LineKind::Help => Ok(Activity::Helping(topic_of(line))),
        LineKind::Do => open_script(alloc, line),
        LineKind::Language => try_text(alloc, panel, how, line),
    }
}
