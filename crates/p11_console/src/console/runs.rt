// A run that is under way.
ghost use Rattle.std.specs.Prelude.{◌≡◌, OnErr, IfOk, IfErr};
ghost use Rattle.p11_cpu.specs.OperatorDevices.{room_of};
ghost use Rattle.p11_console.specs.Steps.{Runs, RunRests, TicksIn, RunsBy, stopped_by};

use super::Console;
use crate::slices::slice;
use p11_dialogue::{
    Activity, Course, RunProgress, StopCause, Want, at_slice, course_of, given_keys, is_person,
    pressed_on, record_keys, record_run, record_tick, stop_of, take_escape, take_interrupt,
};
use p11_panel::Command;
use std::alloc::Allocator;

impl<A: Allocator + Copy> Console<A> {
    /// Does a tick that waits, and records it behind so many turns.
    pub(super) fn tick(
        &mut self,
        alloc: A,
        made: u32,
        activity: Activity<A>,
    ) -> Result<Activity<A>, Want>
        ensures ok { IfOk result (λ next. TicksIn made activity self.old (record self.new { activity = next })) }
        ensures err { IfErr result (λ want. want ≡ Want.Memory) }
        ensures same { OnErr result (self.new ≡ self.old) }
    {
        let text = record_tick(alloc, made)?;
        self.journal.push_all(text.as_slice())?;
        let _ = self.panel.act(alloc, &Command::Tick);
        self.ticks = self.ticks.saturating_sub(1);
        Ok(activity)
    }

    /// Goes on with a run.
    #[tactic(auto, unfolding(crate::specs::Steps::Runs))]
    pub(super) fn go_on(
        &mut self,
        alloc: A,
        run: RunProgress,
        turns: u32,
    ) -> Result<Activity<A>, Want>
        ensures ok { IfOk result (λ activity. Runs turns run self.old (record self.new { activity = activity })) }
        ensures err { IfErr result (λ want. RunRests want run self.old) }
        ensures same { OnErr result (self.new ≡ self.old) }
    {
        let room = self.panel.room();
        let course = course_of(
            run,
            is_person(self.settings.manner),
            self.ticks,
            self.is_over,
            self.waiting.as_slice(),
            room,
        );
        match course {
            Course::Slices => {
                let has_keys = self.waiting.has_some();
                let answer = slice(alloc, &mut self.panel, run, has_keys, turns);
                Ok(Activity::Sliced {
                    run: at_slice(has_keys, run),
                    answer,
                })
            }
            Course::Presses => self.press_keys(alloc, run, room),
            Course::Ticks => self.tick(alloc, run.made, Activity::Running(pressed_on(run))),
            Course::Records => self.record_turns(alloc, run),
            Course::Escapes => self.escape(alloc, run),
            Course::Hints => Ok(self.hint(run)),
            Course::Ends => self.end_run(alloc, run, StopCause::End),
            Course::Rests => Err(Want::Idle),
        }
    }

    /// Presses the keys for which there is room, and records them.
    fn press_keys(&mut self, alloc: A, run: RunProgress, room: u32) -> Result<Activity<A>, Want>
        requires { room ≡ room_of self.old.machine }
        ensures ok { IfOk result (λ activity. RunsBy Course.Presses 0 run self.old (record self.new { activity = activity })) }
        ensures err { IfErr result (λ want. want ≡ Want.Memory) }
        ensures same { OnErr result (self.new ≡ self.old) }
    {
        let is_person = is_person(self.settings.manner);
        let given = given_keys(alloc, is_person, self.waiting.as_slice(), room)?;
        let text = record_keys(alloc, run.made, given.keys.as_slice())?;
        self.journal.push_all(text.as_slice())?;
        self.panel.press_all(given.keys.as_slice());
        self.waiting.drop_front(given.count);
        Ok(Activity::Running(pressed_on(run)))
    }

    /// Takes a Ctrl-C out of the keys, and says what ends a run.
    fn hint(&mut self, run: RunProgress) -> Activity<A>
        ensures { RunsBy Course.Hints 0 run self.old (record self.new { activity = result }) }
    {
        take_interrupt(&mut self.waiting);
        self.screen.say(b"(Ctrl-E ends the run.)\n");
        Activity::Running(run)
    }

    /// Records the turns so far.
    fn record_turns(&mut self, alloc: A, run: RunProgress) -> Result<Activity<A>, Want>
        ensures ok { IfOk result (λ activity. RunsBy Course.Records 0 run self.old (record self.new { activity = activity })) }
        ensures err { IfErr result (λ want. want ≡ Want.Memory) }
        ensures same { OnErr result (self.new ≡ self.old) }
    {
        let text = record_run(alloc, run.made)?;
        self.journal.push_all(text.as_slice())?;
        Ok(Activity::Running(RunProgress { made: 0, ..run }))
    }

    /// Ends a run.
    fn end_run(&self, alloc: A, run: RunProgress, cause: StopCause) -> Result<Activity<A>, Want>
        ensures ok { IfOk result (λ activity. activity ≡ stopped_by cause run self.now.machine) }
        ensures err { IfErr result (λ want. want ≡ Want.Memory) }
    {
        let text = record_run(alloc, run.made)?;
        Ok(Activity::Stopped {
            stop: stop_of(run, cause, self.panel.pc()),
            text,
        })
    }

    /// Ends a run by a Ctrl-E, and says so where keys before it are dropped.
    fn escape(&mut self, alloc: A, run: RunProgress) -> Result<Activity<A>, Want>
        ensures ok { IfOk result (λ activity. RunsBy Course.Escapes 0 run self.old (record self.new { activity = activity })) }
        ensures err { IfErr result (λ want. want ≡ Want.Memory) }
        ensures same { OnErr result (self.new ≡ self.old) }
    {
        let activity = self.end_run(alloc, run, StopCause::Key)?;
        let before = self.waiting.len();
        take_escape(&mut self.waiting, run.is_talk);
        let said: &[u8] = if before.saturating_sub(self.waiting.len()) > 1 {
            b"\x07"
        } else {
            b""
        };
        self.screen.say(said);
        Ok(activity)
    }
}
