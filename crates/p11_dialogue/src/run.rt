// A run of the machine that is made in slices, and what comes next in it.
ghost use Rattle.std.specs.Prelude.{◌≡◌, position, if◌then◌else◌};
ghost use Rattle.p11_dialogue.specs.Runs.{run_of, talk_of, is_escape, is_interrupt, has_escape, has_interrupt, course_of, in_talk, without_keys, where_none_is_taken, pressed_on};

use p11_lines::MOST_TURNS;

/// A run: the turns that are left, those that the record lacks and all that were made, and how it goes on.
#[derive(Clone, Copy)]
pub struct RunProgress {
    /// Whether keys go to the machine, until somebody ends it.
    pub is_talk: bool,
    /// Whether it stops where the machine idles.
    pub until_idle: bool,
    pub left: u32,
    /// Turns that aren't recorded yet.
    pub made: u32,
    pub total: u64,
    /// Whether the machine idles.
    pub is_idle: bool,
    /// Slices since the machine took a key, while keys wait.
    pub stuck: u32,
    /// Whether the last byte that was typed ends a line, if there was any.
    pub is_fresh: bool,
    /// Whether the last slice typed nothing.
    pub is_quiet: bool,
}

/// What comes next in a run.
#[derive(Clone, Copy, PartialEq, Eq)]
pub enum Course {
    /// A slice is made.
    Slices,
    /// Keys are pressed.
    Presses,
    /// The line clock ticks.
    Ticks,
    /// The turns so far are recorded.
    Records,
    /// Ctrl-E ends it.
    Escapes,
    /// Ctrl-C is told what ends it.
    Hints,
    /// The end of the keyboard ends it.
    Ends,
    /// The machine idles, and no key waits that it takes.
    Rests,
}

/// Ctrl-E.
const ESCAPE: u8 = 5;

/// Ctrl-C.
const INTERRUPT: u8 = 3;

/// So many slices in a row in which the machine takes none of the keys that wait: a Ctrl-E behind them ends the run.
const PATIENCE: u32 = 200;

/// A run of so many turns.
#[tactic(auto, unfolding(crate::specs::Runs::run_of))]
pub fn run_of(turns: u32, until_idle: bool) -> RunProgress
    ensures { result ≡ run_of turns until_idle }
{
    RunProgress {
        is_talk: false,
        until_idle,
        left: turns,
        made: 0,
        total: 0,
        is_idle: false,
        stuck: 0,
        is_fresh: true,
        is_quiet: false,
    }
}

/// A talk with the machine.
#[tactic(auto, unfolding(crate::specs::Runs::talk_of, crate::specs::Runs::run_of))]
pub fn talk_of() -> RunProgress
    ensures { result ≡ talk_of }
{
    RunProgress {
        is_talk: true,
        ..run_of(MOST_TURNS, true)
    }
}

/// Where the first Ctrl-E is.
#[tactic(auto, unfolding(crate::specs::Runs::is_escape))]
pub(crate) fn escape_in(keys: &[u8]) -> Option<usize>
    ensures { result ≡ position is_escape keys.now }
{
    keys.iter().position(|byte| *byte == ESCAPE)
}

/// Where the first Ctrl-C is.
#[tactic(auto, unfolding(crate::specs::Runs::is_interrupt))]
pub(crate) fn interrupt_in(keys: &[u8]) -> Option<usize>
    ensures { result ≡ position is_interrupt keys.now }
{
    keys.iter().position(|byte| *byte == INTERRUPT)
}

fn has_escape(keys: &[u8]) -> bool
    ensures { result ≡ has_escape keys.now }
{
    escape_in(keys).is_some()
}

fn has_interrupt(keys: &[u8]) -> bool
    ensures { result ≡ has_interrupt keys.now }
{
    interrupt_in(keys).is_some()
}

/// What comes next in a run, with so many ticks that wait, these keys of a person or not, and so much room for them.
#[tactic(auto, unfolding(crate::specs::Runs::course_of))]
pub fn course_of(
    run: RunProgress,
    is_person: bool,
    ticks: u32,
    is_over: bool,
    keys: &[u8],
    room: u32,
) -> Course
    ensures { result ≡ course_of run is_person ticks is_over keys.now room }
{
    if ticks > 0 {
        return Course::Ticks;
    }
    if run.made >= MOST_TURNS {
        return Course::Records;
    }
    if run.is_talk {
        return in_talk(run, is_person, is_over, keys, room);
    }
    if !is_person {
        return Course::Slices;
    }
    if has_escape(keys) {
        return Course::Escapes;
    }
    if has_interrupt(keys) {
        return Course::Hints;
    }
    Course::Slices
}

#[tactic(auto, unfolding(crate::specs::Runs::in_talk))]
fn in_talk(run: RunProgress, is_person: bool, is_over: bool, keys: &[u8], room: u32) -> Course
    ensures { result ≡ in_talk run is_person is_over keys.now room }
{
    if keys.is_empty() {
        return without_keys(run, is_person, is_over);
    }
    if !is_person && !run.is_quiet {
        return Course::Slices;
    }
    if keys[0] == ESCAPE {
        return Course::Escapes;
    }
    if room > 0 {
        return Course::Presses;
    }
    if !run.is_idle && run.stuck < PATIENCE {
        return Course::Slices;
    }
    where_none_is_taken(run, is_over, keys)
}

/// What comes next in a talk where no key waits.
fn without_keys(run: RunProgress, is_person: bool, is_over: bool) -> Course
    ensures { result ≡ without_keys run is_person is_over }
{
    if is_person {
        if is_over {
            return Course::Ends;
        }
        return slices_or_rests(run);
    }
    if !run.is_quiet {
        return Course::Slices;
    }
    if is_over {
        return Course::Ends;
    }
    Course::Rests
}

/// What comes next in a talk where the machine takes no key.
fn where_none_is_taken(run: RunProgress, is_over: bool, keys: &[u8]) -> Course
    ensures { result ≡ where_none_is_taken run is_over keys.now }
{
    if has_escape(keys) {
        return Course::Escapes;
    }
    if is_over && run.is_idle {
        return Course::Ends;
    }
    slices_or_rests(run)
}

fn slices_or_rests(run: RunProgress) -> Course
    ensures { result ≡ (if run.is_idle then Course.Rests else Course.Slices) }
{
    if run.is_idle {
        return Course::Rests;
    }
    Course::Slices
}

/// The run once keys were pressed, or the clock ticked.
pub fn pressed_on(run: RunProgress) -> RunProgress
    ensures { result ≡ pressed_on run }
{
    RunProgress {
        made: 0,
        is_idle: false,
        stuck: 0,
        is_quiet: false,
        ..run
    }
}
