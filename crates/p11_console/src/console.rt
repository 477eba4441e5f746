// The console: events in, bytes and requests out.
ghost use Rattle.std.specs.Prelude.{◌≡◌, ◌++◌, ◌≤◌, ◌+◌, min, true, length, drop, OnOk, OnErr, IfOk, IfErr};
ghost use Rattle.p11_lines.specs.AnswerText.{text_of};
ghost use Rattle.p11_console.specs.Files.{opening};
ghost use Rattle.p11_dialogue.specs.Said.{Says, SaysBefore};
ghost use Rattle.p11_console.specs.State.{opened};
ghost use Rattle.p11_dialogue.specs.Behind.{activity_ended};
ghost use Rattle.p11_console.specs.Steps.{Steps, Moves, Rests, is_refusal, status_of};
ghost use Rattle.p11_dialogue.specs.Stops.{stop_text};
ghost use Rattle.p11_dialogue.specs.Typing.{rested};
ghost use Rattle.p11_line_editor.specs.History.{remembered};

mod completion;
mod host;
mod lines;
mod runs;
mod typed;
mod unmounts;

use crate::packs::Packs;
use p11_dialogue::{
    Activity, ActivityCell, Asides, Buffer, Settings, Stop, StopCause, Typist, Want, WordKind,
    help_on, is_batch, is_person, put_stop, show_slice, word_kind_at,
};
use p11_line_editor::Outcome;
use p11_lines::{Answer, Bytes, NoMemory};
use p11_panel::Panel;
use p11_phrases::ExaminedPlace;
use std::alloc::{Allocator, Global};
use std::marker::Model;

/// A console over a machine. Contracts see its `ConsoleState`.
pub struct Console<A: Allocator = Global> {
    panel: Panel<A>,
    settings: Settings,
    is_to_talk: bool,
    waiting: Buffer<A>,
    is_over: bool,
    ticks: u32,
    typist: Typist<A>,
    place: ExaminedPlace,
    is_stepping: bool,
    lines: Buffer<A>,
    script: Buffer<A>,
    is_scripted: bool,
    has_refused: bool,
    lacks_script: bool,
    is_warned: bool,
    saved: Packs<A>,
    screen: Buffer<A>,
    journal: Buffer<A>,
    past: Buffer<A>,
    activity: ActivityCell<A>,
    /// What is said beside the answers.
    asides: Asides<A>,
    /// The columns of the screen.
    columns: usize,
}

impl<A: Allocator> Drop for Console<A> {
    fn drop(self) {
        let Console {
            panel: _,
            settings: _,
            is_to_talk: _,
            waiting: _,
            is_over: _,
            ticks: _,
            typist: _,
            place: _,
            is_stepping: _,
            lines: _,
            script: _,
            is_scripted: _,
            has_refused: _,
            lacks_script: _,
            is_warned: _,
            saved: _,
            screen: _,
            journal: _,
            past: _,
            activity: _,
            asides: _,
            columns: _,
        } = self;
    }
}

impl<A: Allocator> Model for Console<A> {
    ghost use Rattle.p11_console.specs.State.{ConsoleState};

    ghost Value = { ConsoleState A };

    ghost view = { λ c. record {
      machine = c.panel;
      settings = c.settings;
      is_to_talk = c.is_to_talk;
      waiting = c.waiting;
      is_over = c.is_over;
      ticks = c.ticks;
      typist = c.typist;
      place = c.place;
      is_stepping = c.is_stepping;
      lines = c.lines;
      script = c.script;
      is_scripted = c.is_scripted;
      has_refused = c.has_refused;
      lacks_script = c.lacks_script;
      is_warned = c.is_warned;
      saved = c.saved;
      screen = c.screen;
      journal = c.journal;
      past = c.past;
      activity = c.activity;
    } };
}

impl<A: Allocator + Copy> Console<A> {
    /// A console over a machine, with nothing under way.
    #[tactic(auto, unfolding(crate::specs::State::opened))]
    pub fn new(alloc: A, panel: Panel<A>, settings: Settings) -> Self
        ensures { result ≡ opened panel settings }
    {
        Console {
            panel,
            settings,
            is_to_talk: settings.is_talk,
            waiting: Buffer::new(alloc),
            is_over: false,
            ticks: 0,
            typist: Typist::new(alloc),
            place: ExaminedPlace::Nowhere,
            is_stepping: false,
            lines: Buffer::new(alloc),
            script: Buffer::new(alloc),
            is_scripted: false,
            has_refused: false,
            lacks_script: false,
            is_warned: false,
            saved: Packs::new(),
            screen: Buffer::new(alloc),
            journal: Buffer::new(alloc),
            past: Buffer::new(alloc),
            activity: ActivityCell::free(),
            asides: Asides::new(alloc),
            columns: 80,
        }
    }

    /// The lines of the file of this name come next, where nothing is under way.
    pub fn open(&mut self, alloc: A, name: &[u8]) -> Result<(), NoMemory>
        ensures ok { OnOk result (self.new ≡ record self.old { activity = opening name.now self.old.activity }) }
        ensures err { OnErr result (self.new ≡ self.old) }
    {
        let mut copy = Vec::new(alloc);
        copy.extend_from_slice(name)?;
        if let Activity::Free = self.activity.get() {
            self.activity.set(Activity::Opening {
                name: Bytes::from_vec(copy),
            });
        }
        Ok(())
    }

    /// A line that was typed in an earlier dialogue.
    pub fn remember(&mut self, alloc: A, line: &[u8]) -> Result<(), NoMemory>
        ensures ok { OnOk result (self.new ≡ record self.old { typist = record self.old.typist { history = remembered line.now self.old.typist.history } }) }
        ensures err { OnErr result (self.new ≡ self.old) }
    {
        self.typist.remember(alloc, line)?;
        Ok(())
    }

    /// Takes keys behind those that wait; or none, where there is no memory for them all.
    pub fn keys(&mut self, bytes: &[u8]) -> Result<(), NoMemory>
        ensures ok { OnOk result (self.new ≡ record self.old { waiting = self.old.waiting ++ bytes.now }) }
        ensures err { OnErr result (self.new ≡ self.old) }
    {
        self.waiting.push_all(bytes)
    }

    /// The line clock ticks, once the machine can take that.
    pub fn ticked(&mut self)
        ensures { self.new ≡ record self.old { ticks = min (self.old.ticks + 1) 4294967295 } }
    {
        self.ticks = self.ticks.saturating_add(1);
    }

    /// No key comes any more.
    pub fn closed(&mut self)
        ensures { self.new ≡ record self.old { is_over = true } }
    {
        self.is_over = true;
    }

    /// The keyboard has nothing more for now: an ESC that stands alone was no key.
    pub fn paused(&mut self)
        ensures { self.new ≡ record self.old { typist = rested self.old.typist } }
    {
        self.typist.pause();
    }

    /// The screen has so many columns.
    pub fn resized(&mut self, columns: usize)
        ensures { self.new ≡ self.old }
    {
        self.columns = columns;
    }

    /// The machine.
    pub fn panel(&self) -> &Panel<A>
        ensures { result.now ≡ self.now.machine }
    {
        &self.panel
    }

    /// The bytes for the screen that the host hasn't taken.
    pub fn screen(&self) -> &[u8]
        ensures { result.now ≡ self.now.screen }
    {
        self.screen.as_slice()
    }

    /// Shows the line again that is typed, as when the terminal was another program's.
    pub fn redrawn(&mut self)
        ensures { Says self.old.screen self.new.screen × (self.new ≡ record self.old { screen = self.new.screen }) }
    {
        if let Activity::Typing = self.activity.get() {
            if is_person(self.settings.manner) {
                self.show(Outcome::Changed);
            }
        }
    }

    /// The lines for the history's file that the host hasn't taken.
    pub fn past(&self) -> &[u8]
        ensures { result.now ≡ self.now.past }
    {
        self.past.as_slice()
    }

    /// The bytes for the standard error that the host hasn't taken: what is said of a script that is all.
    pub fn errors(&self) -> &[u8] {
        self.asides.errors()
    }

    /// The status of a program that holds this dialogue, once it is over (decimal).
    #[tactic(auto, unfolding(crate::specs::Steps::status_of))]
    pub fn status(&self) -> u8
        ensures { result ≡ status_of self.now }
    {
        let is_failed = self.lacks_script || self.settings.is_strict && self.has_refused;
        if is_batch(self.settings.manner) && is_failed {
            1
        } else {
            0
        }
    }

    /// The bytes for the record that the host hasn't taken.
    pub fn record(&self) -> &[u8]
        ensures { result.now ≡ self.now.journal }
    {
        self.journal.as_slice()
    }

    /// The host has written so many bytes of the screen's.
    pub fn shown(&mut self, count: usize)
        requires { count ≤ length self.old.screen }
        ensures { self.new ≡ record self.old { screen = drop count self.old.screen } }
    {
        self.screen.drop_front(count);
    }

    /// The host has written so many bytes of the record's.
    pub fn recorded(&mut self, count: usize)
        requires { count ≤ length self.old.journal }
        ensures { self.new ≡ record self.old { journal = drop count self.old.journal } }
    {
        self.journal.drop_front(count);
    }

    /// The host has written so many bytes of the history's.
    pub fn kept(&mut self, count: usize)
        requires { count ≤ length self.old.past }
        ensures { self.new ≡ record self.old { past = drop count self.old.past } }
    {
        self.past.drop_front(count);
    }

    /// The host has written all that is for the standard error.
    pub fn told(&mut self)
        ensures { self.new ≡ self.old }
    {
        self.asides.drop_errors();
    }

    /// Does one thing: takes a key, does a line, makes a slice of at most so many turns, presses keys, shows what was typed,
    /// or tells an answer. For want of memory nothing is done.
    pub fn step(&mut self, alloc: A, turns: u32) -> Want
        ensures { Steps turns self.old result self.new }
    {
        match self.do_next(alloc, turns) {
            Ok(activity) => {
                self.activity.set(activity);
                Want::Step
            }
            Err(want) => want,
        }
    }

    /// Does that, but for bringing something else under way.
    #[tactic(auto, using(crate::proofs::Resting::running_rests, crate::proofs::Resting::typing_rests, crate::proofs::Resting::answer_rests, crate::proofs::Resting::consent_rests))]
    fn do_next(&mut self, alloc: A, turns: u32) -> Result<Activity<A>, Want>
        ensures ok { IfOk result (λ activity. Moves turns self.old.activity self.old (record self.new { activity = activity })) }
        ensures err { IfErr result (λ want. Rests want self.old) }
        ensures same { OnErr result (self.new ≡ self.old) }
    {
        match self.activity.get() {
            Activity::Free => self.find_line(alloc),
            Activity::Typing => self.take_typed(alloc),
            Activity::Naming => {
                if word_kind_at(&self.typist.editor) == WordKind::File {
                    return Err(Want::Names);
                }
                self.complete(alloc, &[]);
                Ok(Activity::Typing)
            }
            Activity::Entered => {
                self.keep_line(alloc)?;
                Ok(Activity::Noted)
            }
            Activity::Noted => self.read_line(alloc),
            Activity::Helping(topic) => {
                self.screen.say(help_on(alloc, topic).as_slice());
                Ok(Activity::Free)
            }
            Activity::Running(run) => {
                let run = *run;
                self.go_on(alloc, run, turns)
            }
            Activity::Sliced { run, answer } => {
                let activity = show_slice(alloc, &mut self.screen, *run, answer)?;
                Ok(activity)
            }
            Activity::Stopped { stop, text } => {
                let stop = *stop;
                tell_stop(
                    alloc,
                    &mut self.screen,
                    &mut self.journal,
                    stop,
                    text.as_slice(),
                )?;
                Ok(activity_ended(stop.cause))
            }
            Activity::Telling { answer, text, note } => {
                tell(&mut self.screen, &mut self.journal, answer, text.as_slice())?;
                self.has_refused = self.has_refused || self.is_scripted && is_refusal(answer);
                let manner = self.settings.manner;
                let said = self.asides.behind_answer(alloc, manner, answer, note);
                self.screen.say(said.as_slice());
                Ok(Activity::Free)
            }
            Activity::Asking { .. } => self.take_answer(),
            Activity::Unmounting { drive, is_agreed } => {
                let drive = *drive;
                let is_agreed = *is_agreed;
                self.unmount(alloc, drive, is_agreed)
            }
            Activity::Doubting { drive } => {
                let drive = *drive;
                self.take_consent(drive)
            }
            Activity::Fetching { .. } => Err(Want::Fetch),
            Activity::Opening { .. } => Err(Want::Fetch),
            Activity::Putting { .. } => Err(Want::Put),
            Activity::Leaving => self.leave(alloc),
            Activity::Over => Err(Want::End),
        }
    }
}

fn is_refusal<A: Allocator>(answer: &Answer<A>) -> bool
    ensures { result ≡ is_refusal answer.now }
{
    match answer {
        Answer::Refused(_) => true,
        _ => false,
    }
}

fn activity_ended<A: Allocator>(cause: StopCause) -> Activity<A>
    ensures { result ≡ activity_ended cause }
{
    match cause {
        StopCause::End => Activity::Leaving,
        _ => Activity::Free,
    }
}

/// Tells how a run ended, on a line of its own, and records it; both or neither.
fn tell_stop<A: Allocator + Copy>(
    alloc: A,
    screen: &mut Buffer<A>,
    journal: &mut Buffer<A>,
    stop: Stop,
    text: &[u8],
) -> Result<(), NoMemory>
    ensures screen { OnOk result (SaysBefore screen.old (stop_text stop) screen.new) }
    ensures journal { OnOk result (journal.new ≡ journal.old ++ text.now) }
    ensures same { OnErr result ((screen.new ≡ screen.old) × (journal.new ≡ journal.old)) }
{
    let len = screen.len();
    let front: &[u8] = if stop.is_fresh { b"" } else { b"\n" };
    screen.say(front);
    if put_stop(alloc, screen, stop).is_err() || journal.push_all(text).is_err() {
        screen.cut(len);
        return Err(NoMemory);
    }
    Ok(())
}

/// Puts an answer's text on the screen, and this text into the record; both or neither.
fn tell<A: Allocator>(
    screen: &mut Buffer<A>,
    journal: &mut Buffer<A>,
    answer: &Answer<A>,
    text: &[u8],
) -> Result<(), NoMemory>
    ensures screen { OnOk result (screen.new ≡ screen.old ++ text_of answer.now) }
    ensures journal { OnOk result (journal.new ≡ journal.old ++ text.now) }
    ensures same { OnErr result ((screen.new ≡ screen.old) × (journal.new ≡ journal.old)) }
{
    let len = screen.len();
    screen.put(answer)?;
    if journal.push_all(text).is_err() {
        screen.cut(len);
        return Err(NoMemory);
    }
    Ok(())
}
