// The line that is done next, from where it comes.
ghost use Rattle.std.specs.Prelude.{◌≡◌, ◌++◌, if◌then◌else◌, OnOk, OnErr, IfOk, IfErr};
ghost use Rattle.p11_dialogue.specs.Runs.{talk_of};
ghost use Rattle.p11_console.specs.Steps.{FindsLine, DoesMeant, DoesScripted, Begins, Reads, DoesPhrase, DoesGiven, Leaves, still_warned, is_quit, is_once, StepsAgain};
ghost use Rattle.p11_dialogue.specs.Typing.{kept_line, past_of};

use super::Console;
use crate::packs::any_unsaved;
use crate::tries::{begin_run, do_line, refused, try_text};
use p11_dialogue::{
    Activity, Buffer, LineKind, Note, Text, Want, add_meanings, drop_line, first_line, is_batch,
    kind_of_line, talk_of, tried_by, verb_and_rest,
};
use p11_lines::{Fault, NoMemory};
use p11_phrases::{Phrase, Refusal, read_phrase};
use std::alloc::Allocator;

impl<A: Allocator + Copy> Console<A> {
    /// Remembers the line that was typed.
    pub(super) fn keep_line(&mut self, alloc: A) -> Result<(), NoMemory>
        ensures ok { OnOk result (self.new ≡ record self.old { typist = kept_line self.old.typist; past = self.old.past ++ past_of self.old.typist }) }
        ensures err { OnErr result (self.new ≡ self.old) }
    {
        let text = self.typist.past_text(alloc)?;
        let len = self.past.len();
        self.past.push_all(text.as_slice())?;
        if self.typist.keep(alloc).is_err() {
            self.past.cut(len);
            return Err(NoMemory);
        }
        Ok(())
    }

    /// Does the next line that waits, or begins one.
    #[tactic(auto, unfolding(crate::specs::Steps::FindsLine))]
    pub(super) fn find_line(&mut self, alloc: A) -> Result<Activity<A>, Want>
        ensures ok { IfOk result (λ activity. FindsLine self.old (record self.new { activity = activity })) }
        ensures err { IfErr result (λ want. want ≡ Want.Memory) }
        ensures same { OnErr result (self.new ≡ self.old) }
    {
        if self.lines.has_some() {
            return self.do_meant(alloc);
        }
        let is_all = is_batch(self.settings.manner);
        let is_given_up = is_all && (self.settings.is_strict && self.has_refused);
        if self.script.has_some() && !is_given_up {
            return self.do_scripted(alloc);
        }
        Ok(self.begin(alloc))
    }

    /// Goes on behind a script: with a line, a talk, or the end.
    fn begin(&mut self, alloc: A) -> Activity<A>
        ensures { Begins self.old (record self.new { activity = result }) }
    {
        let is_all = is_batch(self.settings.manner);
        let is_to_talk = self.is_to_talk;
        let manner = self.settings.manner;
        let said = self.asides.behind_script(alloc, manner, is_to_talk);
        self.screen.say(said.as_slice());
        self.is_to_talk = false;
        self.typist.begin();
        goes_behind(is_all, is_to_talk)
    }

    /// Does the first of the lines that the typed one means.
    #[tactic(auto, unfolding(crate::specs::Steps::DoesMeant))]
    fn do_meant(&mut self, alloc: A) -> Result<Activity<A>, Want>
        ensures ok { IfOk result (λ activity. DoesMeant self.old (record self.new { activity = activity })) }
        ensures err { IfErr result (λ want. want ≡ Want.Memory) }
        ensures same { OnErr result (self.new ≡ self.old) }
    {
        let line = first_line(self.lines.as_slice());
        let activity = do_line(alloc, &mut self.panel, tried_by(self.settings), line)?;
        self.is_warned = still_warned(self.is_warned, line);
        self.is_stepping = is_once(kind_of_line(line));
        self.is_scripted = false;
        self.asides.leave_line();
        let mut said = meant_text(alloc, line);
        said.add(self.asides.of_activity(self.settings.manner, &activity));
        self.screen.say(said.as_slice());
        drop_line(&mut self.lines);
        Ok(activity)
    }

    /// Does the first line of the script.
    fn do_scripted(&mut self, alloc: A) -> Result<Activity<A>, Want>
        ensures ok { IfOk result (λ activity. DoesScripted self.old (record self.new { activity = activity })) }
        ensures err { IfErr result (λ want. want ≡ Want.Memory) }
        ensures same { OnErr result (self.new ≡ self.old) }
    {
        let how = tried_by(self.settings);
        let activity = try_text(
            alloc,
            &mut self.panel,
            how,
            first_line(self.script.as_slice()),
        )?;
        self.asides.begin_line(first_line(self.script.as_slice()));
        drop_line(&mut self.script);
        self.is_scripted = true;
        self.is_warned = false;
        Ok(activity)
    }

    pub(super) fn do_given(&mut self, alloc: A) -> Result<Activity<A>, NoMemory>
        ensures ok { IfOk result (λ activity. DoesGiven self.old (record self.new { activity = activity })) }
        ensures same { OnErr result (self.new ≡ self.old) }
    {
        let line = first_line(self.waiting.as_slice());
        let activity = do_line(alloc, &mut self.panel, tried_by(self.settings), line)?;
        self.is_warned = still_warned(self.is_warned, line);
        self.is_scripted = false;
        self.asides.leave_line();
        let said = self.asides.of_activity(self.settings.manner, &activity);
        self.screen.say(said);
        drop_line(&mut self.waiting);
        Ok(activity)
    }

    /// Reads the line that was typed: as it stands it is done, or the lines in its place come next.
    #[tactic(auto, unfolding(crate::specs::Steps::Reads), using(crate::proofs::Meanings::meant_is))]
    pub(super) fn read_line(&mut self, alloc: A) -> Result<Activity<A>, Want>
        ensures ok { IfOk result (λ activity. Reads self.old (record self.new { activity = activity })) }
        ensures err { IfErr result (λ want. want ≡ Want.Memory) }
        ensures same { OnErr result (self.new ≡ self.old) }
    {
        if self.is_stepping && verb_and_rest(self.typist.editor.text()).0.is_empty() {
            return Ok(self.step_again(alloc));
        }
        match read_phrase(alloc, self.place, self.typist.editor.text()) {
            Err(Refusal::NoMemory) => Err(Want::Memory),
            Err(refusal) => {
                let note = why_no_phrase(alloc, refusal, self.typist.editor.text());
                self.is_stepping = false;
                self.is_scripted = false;
                self.asides.leave_line();
                Ok(refused(alloc, Fault::BadLine, note))
            }
            Ok(phrase) => self.do_phrase(alloc, phrase),
        }
    }

    /// Does `step` once more.
    fn step_again(&mut self, alloc: A) -> Activity<A>
        ensures { StepsAgain self.old (record self.new { activity = result }) }
    {
        self.is_scripted = false;
        self.is_warned = false;
        self.asides.leave_line();
        self.screen.say(b"= step\n");
        begin_run(alloc, 1, false)
    }

    fn do_phrase(&mut self, alloc: A, phrase: Phrase<A>) -> Result<Activity<A>, Want>
        ensures ok { IfOk result (λ activity. DoesPhrase phrase.lines phrase.place self.old.typist.editor.line.text self.old (record self.new { activity = activity })) }
        ensures err { IfErr result (λ want. want ≡ Want.Memory) }
        ensures same { OnErr result (self.new ≡ self.old) }
    {
        let Phrase { lines, place } = phrase;
        match lines {
            None => {
                let line = self.typist.editor.text();
                let activity = do_line(alloc, &mut self.panel, tried_by(self.settings), line)?;
                self.is_warned = still_warned(self.is_warned, line);
                self.place = place;
                self.is_stepping = is_once(kind_of_line(line));
                self.is_scripted = false;
                self.asides.leave_line();
                let said = self.asides.of_activity(self.settings.manner, &activity);
                self.screen.say(said);
                Ok(activity)
            }
            Some(lines) => {
                self.lines = Buffer::of(lines.into_vec());
                self.place = place;
                Ok(Activity::Free)
            }
        }
    }

    /// The end, unless there is a pack that is in no file, and that wasn't told.
    #[tactic(auto, unfolding(crate::specs::Steps::Leaves))]
    pub(super) fn leave(&mut self, alloc: A) -> Result<Activity<A>, Want>
        ensures ok { IfOk result (λ activity. Leaves self.old (record self.new { activity = activity })) }
        ensures err { IfErr result (λ want. want ≡ Want.Memory) }
        ensures same { OnErr result (self.new ≡ self.old) }
    {
        if self.is_warned {
            self.screen.say(b"");
            return Ok(Activity::Over);
        }
        let at_once = self.is_over || self.settings.is_saveless;
        let mut said = Text::new(alloc);
        let found = any_unsaved(alloc, &mut self.panel, &self.saved, &mut said);
        let is_over = at_once || !found?;
        if is_over {
            self.asides.add_unwritten(&mut said);
        } else {
            said.add(b"A second quit leaves, and what no file has is lost.\n");
        }
        self.screen.say(said.as_slice());
        if is_over {
            return Ok(Activity::Over);
        }
        self.is_warned = true;
        Ok(Activity::Free)
    }
}

/// A line that the typed one means.
fn meant_text<A: Allocator>(alloc: A, line: &[u8]) -> Text<A> {
    let mut text = Text::new(alloc);
    text.add(b"= ");
    text.add(line);
    text.add(b"\n");
    text
}

/// Why a typed line means nothing.
fn why_no_phrase<A: Allocator>(alloc: A, refusal: Refusal, typed: &[u8]) -> Note<A> {
    let mut text = Text::new(alloc);
    text.add(refusal.reason().as_bytes());
    if let Refusal::Ambiguous = refusal {
        add_meanings(&mut text, typed);
    }
    Note::of(text.into_vec())
}

/// What comes behind a script.
fn goes_behind<A: Allocator>(is_all: bool, is_to_talk: bool) -> Activity<A>
    ensures { result ≡ (if is_all then Activity.Over else (if is_to_talk then Activity.Running talk_of else Activity.Typing)) }
{
    if is_all {
        return Activity::Over;
    }
    if is_to_talk {
        return Activity::Running(talk_of());
    }
    Activity::Typing
}

#[tactic(auto, unfolding(crate::specs::Steps::still_warned))]
fn still_warned(is_warned: bool, line: &[u8]) -> bool
    ensures { result ≡ still_warned is_warned line.now }
{
    is_warned && is_quit(kind_of_line(line))
}

fn is_once(kind: LineKind) -> bool
    ensures { result ≡ is_once kind }
{
    match kind {
        LineKind::Once => true,
        _ => false,
    }
}

fn is_quit(kind: LineKind) -> bool
    ensures { result ≡ is_quit kind }
{
    match kind {
        LineKind::Quit => true,
        _ => false,
    }
}
