// What is typed: keys, lines of a program, the answer to a question.
ghost use Rattle.std.specs.Prelude.{◌≡◌, true, false, slice_get, OnErr, IfOk, IfErr};
ghost use Rattle.p11_dialogue.specs.Manner.{is_person};
ghost use Rattle.p11_dialogue.specs.Said.{Says};
ghost use Rattle.p11_console.specs.Steps.{Types, TakesKey, TakesLine, has_given, TypingRests, RestsForKeys, Answers, IsAsking, agrees};

use super::Console;
use p11_dialogue::{Activity, Want, is_person, line_end, outcome_activity};
use p11_line_editor::Outcome;
use std::alloc::Allocator;

impl<A: Allocator + Copy> Console<A> {
    /// Takes the first key that waits, or the first line of a program.
    #[tactic(auto, unfolding(crate::specs::Steps::Types))]
    pub(super) fn take_typed(&mut self, alloc: A) -> Result<Activity<A>, Want>
        ensures ok { IfOk result (λ activity. Types self.old (record self.new { activity = activity })) }
        ensures err { IfErr result (λ want. TypingRests want self.old) }
        ensures same { OnErr result (self.new ≡ self.old) }
    {
        if self.ticks > 0 {
            let activity = self.tick(alloc, 0, Activity::Typing)?;
            return Ok(activity);
        }
        if is_person(self.settings.manner) {
            return self.take_key();
        }
        self.take_line(alloc)
    }

    /// Takes the first key that waits.
    fn take_key(&mut self) -> Result<Activity<A>, Want>
        requires ticks { self.old.ticks ≡ 0 }
        requires person { is_person self.old.settings.manner ≡ true }
        ensures ok { IfOk result (λ activity. TakesKey (slice_get self.old.waiting 0) self.old (record self.new { activity = activity })) }
        ensures err { IfErr result (λ want. TypingRests want self.old) }
        ensures same { OnErr result (self.new ≡ self.old) }
    {
        let Some(byte) = self.waiting.first() else {
            if self.is_over {
                return Ok(Activity::Leaving);
            }
            return Err(Want::Keys);
        };
        self.waiting.drop_front(1);
        let outcome = self.typist.take(byte);
        self.draw(outcome);
        Ok(outcome_activity(outcome))
    }

    /// Does the first line that a program has given.
    fn take_line(&mut self, alloc: A) -> Result<Activity<A>, Want>
        requires ticks { self.old.ticks ≡ 0 }
        requires person { is_person self.old.settings.manner ≡ false }
        ensures ok { IfOk result (λ activity. TakesLine self.old (record self.new { activity = activity })) }
        ensures err { IfErr result (λ want. TypingRests want self.old) }
        ensures same { OnErr result (self.new ≡ self.old) }
    {
        if has_given(self.is_over, self.waiting.as_slice()) {
            let activity = self.do_given(alloc)?;
            return Ok(activity);
        }
        if self.is_over {
            return Ok(Activity::Leaving);
        }
        Err(Want::Keys)
    }

    /// Takes the answer to the question whether a file is written over.
    pub(super) fn take_answer(&mut self) -> Result<Activity<A>, Want>
        requires { IsAsking self.old.activity }
        ensures ok { IfOk result (λ activity. Answers self.old.activity self.old (record self.new { activity = activity })) }
        ensures err { IfErr result (λ want. (want ≡ Want.Keys) × RestsForKeys self.old.activity self.old) }
        ensures same { OnErr result (self.new ≡ self.old) }
    {
        let Some(byte) = self.waiting.first() else {
            if self.is_over {
                self.screen.say(answer_text(false));
                return Ok(Activity::Free);
            }
            return Err(Want::Keys);
        };
        let is_agreed = agrees(byte);
        self.waiting.drop_front(1);
        self.screen.say(answer_text(is_agreed));
        match self.activity.take() {
            Activity::Asking { line, image, text } if is_agreed => Ok(Activity::Putting {
                line,
                image,
                text,
                is_agreed: true,
            }),
            _ => Ok(Activity::Free),
        }
    }

    /// Shows what a key has led to.
    fn draw(&mut self, outcome: Option<Outcome>)
        ensures { Says self.old.screen self.new.screen × (self.new ≡ record self.old { screen = self.new.screen }) }
    {
        match outcome {
            None => self.screen.say(b""),
            Some(Outcome::Done) | Some(Outcome::Ended) => self.screen.say(b"\n"),
            Some(Outcome::Interrupted) => self.screen.say(b"^C\np11> "),
            Some(Outcome::Complete) => self.screen.say(b""),
            Some(outcome) => self.show(outcome),
        }
    }
}

/// What follows the question whether a file is written over.
fn answer_text(is_agreed: bool) -> &'static [u8] {
    if is_agreed {
        b"y\n"
    } else {
        b"no\nNot written.\n"
    }
}

/// `y` and `Y`.
pub(super) fn agrees(byte: u8) -> bool
    ensures { result ≡ agrees byte }
{
    byte == b'y' || byte == b'Y'
}

/// Whether a program has given a line, or the rest of what it gives.
#[tactic(auto, unfolding(crate::specs::Steps::has_given))]
fn has_given(is_over: bool, waiting: &[u8]) -> bool
    ensures { result ≡ has_given is_over waiting.now }
{
    line_end(waiting).is_some() || is_over && !waiting.is_empty()
}
