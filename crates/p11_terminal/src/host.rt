// The host of a console: it reads and writes all that the console takes and gives.
use crate::ending::Cause;
use crate::files::Files;
use crate::folder::names_of;
use crate::journal::Journal;
use crate::notice::notice;
use crate::rescue::Rescues;
use crate::timing::Timing;
use crate::window::{Told, told_in};
use p11_console::{Console, Want};
use p11_host::{Course, End, end_of};
use p11_shown::{Bits, Outlet, OutletFault, sent_of};
use std::fs::{File, OpenOptions};
use std::io::{IsTerminal, Read, Stderr, Stdin, Stdout, Write};
use std::os::unix::process::parent_id;
use std::sync::ledger::Ledger;
use std::thread;
use std::time::{Clock, Duration};

/// How many milliseconds it sleeps where the pace allows no turn.
const HOLD_MS: u64 = 4;

/// How many milliseconds pass at least between two looks at the keyboard while the console is at work.
const LOOK_MS: u64 = 5;

/// Bytes of one read at most.
const READ_BYTES: usize = 4096;

/// Ctrl-E, which ends a run.
const ESCAPE: u8 = 5;

/// Ctrl-Z, by which a person at the console asks for the shell.
const SUSPEND: u8 = 0o32;

/// What tells a person that a key is none.
const BELL: &[u8] = b"\x07";

/// What asks the launcher for the shell.
const ASKS: &[u8] = b"suspend\n";

/// So many steps end a run and record it.
const LAST_STEPS: u32 = 8;

/// The drives.
const DRIVES: u32 = 8;

/// A console, and what is around it.
#[derive(Drop)]
pub(crate) struct Host<'a, L: Ledger> {
    pub(crate) rt: &'a HostRuntime,
    pub(crate) console: Console,
    /// Turns of a slice.
    pub(crate) slice: u32,
    pub(crate) input: Stdin,
    /// Whether a person types: then a read doesn't wait, and gives nothing where nothing is pressed.
    pub(crate) is_typed: bool,
    pub(crate) has_read_fault: bool,
    pub(crate) has_write_fault: bool,
    pub(crate) screen: Outlet<Stdout>,
    pub(crate) errors: Outlet<Stderr>,
    /// How many bits the machine's terminal has.
    pub(crate) bits: Bits,
    /// Whether the machine has typed what is for the screen, and not the console.
    pub(crate) is_machines: bool,
    /// Whether the last step made turns: then the next one shows what was typed in them.
    pub(crate) has_run: bool,
    /// Whether a run is under way, so that keys are the machine's.
    pub(crate) is_running: bool,
    pub(crate) timing: Timing,
    pub(crate) files: Files<'a, L>,
    pub(crate) journal: Journal,
    /// The folder below which names are looked up.
    pub(crate) top: Option<&'a str>,
    /// The history's file.
    pub(crate) past: Option<File>,
    /// The file in which the launcher tells the terminal's size, and a signal.
    pub(crate) told: Option<String>,
    /// The file that takes what the launcher is asked.
    pub(crate) asks: Option<String>,
    /// The process that has started this one.
    pub(crate) parent: u32,
    /// How often the terminal had been another program's when the line was shown last.
    pub(crate) returns: u32,
    /// When the keyboard was looked at, by the system's clock.
    pub(crate) looked: Duration,
    pub(crate) rescues: Rescues<'a>,
    /// Whether packs that no file has are kept.
    pub(crate) keeps: bool,
    /// How often they are; zero: only where the dialogue is cut off.
    pub(crate) autosave: Duration,
    /// When they were last, by the system's clock.
    pub(crate) kept: Duration,
    /// Once the dialogue was cut off: the steps that are left.
    pub(crate) last_steps: Option<u32>,
}

impl<L: Ledger> Host<'_, L> {
    /// Holds the dialogue to its end; how it ended. Where a person's was cut off, packs that no file has are kept.
    pub(crate) fn hold(&mut self) -> Result<Cause, Cause> {
        let ended = self.converse();
        if self.is_typed && (self.last_steps.is_some() || ended.is_err()) {
            self.keep_packs(true);
        } else if self.is_typed {
            self.drop_kept();
        }
        ended
    }

    fn converse(&mut self) -> Result<Cause, Cause> {
        for _ in 0..u64::MAX {
            if self.is_done() {
                break;
            }
            let turns = self.timing.slice(self.rt, self.slice);
            if turns == 0 && self.is_running && self.last_steps.is_none() {
                self.hold_back()?;
                continue;
            }
            let want = self.step(turns)?;
            let is_ticking = (self.has_run || want == Want::Idle) && self.tick();
            if want == Want::Step && self.is_early() {
                continue;
            }
            self.write()?;
            match want {
                Want::Step => self.look()?,
                Want::Idle if is_ticking => self.look()?,
                Want::Idle => self.wait()?,
                Want::Keys => {
                    self.is_running = false;
                    self.timing.stop();
                    self.wait()?;
                }
                Want::Fetch => self.fetch(),
                Want::Put => self.put(),
                Want::Names => self.give_names(),
                Want::Memory => return Err(Cause::NoMemory),
                Want::End => break,
            }
        }
        self.write()?;
        Ok(self.ending())
    }

    /// Makes a step. What the console shows is kept apart from what the machine has typed.
    fn step(&mut self, turns: u32) -> Result<Want, Cause> {
        let is_machines = self.has_run;
        let len = self.console.screen().len();
        let before = self.turns();
        let want = self.console.step(self.rt.alloc(), turns);
        if self.console.screen().len() > len && is_machines != self.is_machines {
            self.show(len)?;
            self.is_machines = is_machines;
        }
        let made = self.turns().saturating_sub(before);
        self.has_run = made > 0;
        if made > 0 {
            self.timing.made(self.rt, made);
        }
        if made > 0 || want == Want::Idle {
            self.is_running = true;
        }
        Ok(want)
    }

    /// The turns since the machine was made.
    fn turns(&self) -> u64 {
        self.console.panel().registers().turns
    }

    /// Lets the line clock tick, if it is time: whether it does.
    fn tick(&mut self) -> bool {
        if self.last_steps.is_some() {
            return false;
        }
        let ticks = self.timing.tick(self.rt);
        if ticks.left_out > 0 {
            let count = ticks.left_out;
            if let Ok(text) = format!(in self.rt.alloc();
                "the host stood still: {count} ticks of the line clock are left out"
            ) {
                notice(self.rt, text.as_str());
            }
        }
        if ticks.is_given {
            self.console.ticked();
        }
        ticks.is_given
    }

    /// Sleeps, since the pace allows no turn.
    fn hold_back(&mut self) -> Result<(), Cause> {
        self.write()?;
        thread::sleep(self.rt, Duration::from_millis(HOLD_MS));
        self.look()
    }

    /// How the dialogue ended.
    fn ending(&self) -> Cause {
        let course = Course {
            has_read_fault: self.has_read_fault,
            has_write_fault: self.has_write_fault,
            is_torn: self.journal.is_torn(),
            is_cut_off: self.last_steps.is_some(),
        };
        match end_of(course, self.console.status()) {
            End::ReadFault => Cause::Reading,
            End::WriteFault => Cause::Writing,
            End::Status(status) => Cause::Done(status),
        }
    }

    /// Whether the last step of a dialogue that was cut off is done. Else one more is.
    fn is_done(&mut self) -> bool {
        match self.last_steps {
            None => false,
            Some(0) => true,
            Some(left) => {
                self.last_steps = Some(left - 1);
                false
            }
        }
    }

    /// Ends a run, and takes no key any more: the person is gone.
    fn cut_off(&mut self) {
        if self.last_steps.is_none() {
            self.last_steps = Some(LAST_STEPS);
            let _ = self.console.keys(&[ESCAPE]);
            self.console.closed();
        }
    }

    /// Whether the keyboard was looked at just before. Else it is now.
    fn is_early(&mut self) -> bool {
        let Ok(now) = self.rt.monotonic() else {
            return false;
        };
        if now.saturating_sub(self.looked) < Duration::from_millis(LOOK_MS) {
            return true;
        }
        self.looked = now;
        false
    }

    /// Writes what there is, and tells the console that it is written.
    fn write(&mut self) -> Result<(), Cause> {
        let count = self.console.record().len();
        self.journal.write(self.rt, self.console.record());
        self.console.recorded(count);
        let count = self.console.past().len();
        if let Some(file) = &mut self.past {
            let _ = file.write_all(self.console.past());
        }
        self.console.kept(count);
        let count = self.console.screen().len();
        self.show(count)?;
        self.is_machines = false;
        self.errors.write(self.rt.alloc(), self.console.errors())?;
        self.console.told();
        Ok(())
    }

    /// Writes so many bytes of the screen's, or all if there are fewer.
    fn show(&mut self, count: usize) -> Result<(), Cause> {
        let count = count.min(self.console.screen().len());
        let bytes = &self.console.screen()[..count];
        let done = if self.is_machines {
            self.screen.write_typed(self.rt.alloc(), self.bits, bytes)
        } else {
            self.screen.write(self.rt.alloc(), bytes)
        };
        self.console.shown(count);
        self.take_written(done)?;
        Ok(())
    }

    /// Where a person's screen takes nothing any more, the person is gone.
    fn take_written(&mut self, done: Result<(), OutletFault>) -> Result<(), OutletFault> {
        if done.is_err() && self.is_typed {
            self.has_write_fault = true;
            self.cut_off();
            return Ok(());
        }
        done
    }

    /// Looks at the keyboard of a person, at what the launcher tells, and at the clock.
    fn look(&mut self) -> Result<(), Cause> {
        self.keep_in_time();
        if self.is_typed && self.last_steps.is_none() {
            self.look_at_terminal();
            self.read()?;
        }
        Ok(())
    }

    /// Waits for keys: at a terminal for a moment, or to the next tick. An ESC behind which nothing comes meanwhile stands alone.
    fn wait(&mut self) -> Result<(), Cause> {
        self.keep_in_time();
        self.look_at_terminal();
        if !self.is_typed {
            self.timing.stop();
        }
        if !self.read()? {
            thread::sleep(self.rt, self.timing.nap(self.rt));
            if !self.read()? {
                self.console.paused();
            }
        }
        Ok(())
    }

    /// Reads once, and gives that to the console; whether something came.
    fn read(&mut self) -> Result<bool, Cause> {
        let mut bytes = [0u8; READ_BYTES];
        match self.input.read(&mut bytes) {
            Ok(0) if self.is_typed => return Ok(false),
            Ok(0) => self.console.closed(),
            Ok(count) if !self.is_typed => self.console.keys(&bytes[..count])?,
            Ok(count) if self.is_running => self.press(&bytes[..count])?,
            Ok(count) => self.type_line(&bytes[..count])?,
            Err(_) => {
                self.has_read_fault = true;
                self.close();
            }
        }
        Ok(true)
    }

    /// Gives keys to the machine. A byte that its terminal has no key for rings.
    fn press(&mut self, bytes: &[u8]) -> Result<(), Cause> {
        let sent = sent_of(self.rt.alloc(), self.bits, bytes)?;
        self.console.keys(sent.as_slice())?;
        if sent.len() < bytes.len() {
            let done = self.screen.write(self.rt.alloc(), BELL);
            self.take_written(done)?;
        }
        Ok(())
    }

    /// Gives keys to the console. Ctrl-Z asks the launcher for the shell, where there is one.
    fn type_line(&mut self, bytes: &[u8]) -> Result<(), Cause> {
        for byte in bytes {
            if *byte != SUSPEND || !self.suspend() {
                self.console.keys(&[*byte])?;
            }
        }
        Ok(())
    }

    /// Asks the launcher to give the terminal to the shell: whether it is asked.
    fn suspend(&self) -> bool {
        let Some(asks) = &self.asks else {
            return false;
        };
        match OpenOptions::new().write(true).open(self.rt, asks.as_str()) {
            Ok(mut file) => file.write_all(ASKS).is_ok(),
            Err(_) => false,
        }
    }

    /// No key can be read any more.
    fn close(&mut self) {
        if self.is_typed {
            self.cut_off();
        } else {
            self.console.closed();
        }
    }

    /// Tells the console how wide the terminal is, and that it was another program's. A signal that the launcher was sent, and
    /// a terminal or a launcher that is no more, cut the dialogue off.
    fn look_at_terminal(&mut self) {
        if self.is_typed && self.is_left() {
            self.cut_off();
        }
        let Some(file) = &self.told else {
            return;
        };
        match told_in(self.rt, file.as_str()) {
            Some(Told::Window(window)) => {
                self.console.resized(window.columns);
                if window.returns != self.returns {
                    self.returns = window.returns;
                    self.console.redrawn();
                }
            }
            Some(Told::Over) => self.cut_off(),
            None => {}
        }
    }

    /// Whether the terminal or the process that started this one is no more.
    fn is_left(&self) -> bool {
        !self.input.is_terminal() || parent_id(self.rt.process()) != self.parent
    }

    /// Keeps packs that no file has, as often as that was asked for.
    fn keep_in_time(&mut self) {
        if self.autosave == Duration::ZERO {
            return;
        }
        if let Ok(now) = self.rt.monotonic() {
            if now.saturating_sub(self.kept) >= self.autosave {
                self.kept = now;
                self.keep_packs(false);
            }
        }
    }

    /// Keeps each pack that no file has; where, may be said.
    fn keep_packs(&mut self, is_said: bool) {
        if !self.keeps {
            return;
        }
        for drive in 0..DRIVES {
            match self.console.unsaved(self.rt.alloc(), drive) {
                Ok(Some(image)) => self.keep(drive, image.as_slice(), is_said),
                Ok(None) => self.rescues.drop_kept(drive),
                Err(_) => self.say_lost(drive, "there was no memory"),
            }
        }
    }

    fn keep(&mut self, drive: u32, image: &[u8], is_said: bool) {
        match self.rescues.keep(drive, image) {
            Ok(file) if is_said => {
                if let Ok(text) = format!(in self.rt.alloc();
                    "the pack on drive {drive} is kept in {file}"
                ) {
                    notice(self.rt, text.as_str());
                }
            }
            Ok(_) => {}
            Err(fault) => self.say_lost(drive, fault.text()),
        }
    }

    fn say_lost(&self, drive: u32, reason: &str) {
        if let Ok(text) = format!(in self.rt.alloc();
            "the pack on drive {drive} can't be kept: {reason}"
        ) {
            notice(self.rt, text.as_str());
        }
    }

    /// Takes away the files in which packs were kept: the person knows of what isn't saved.
    fn drop_kept(&mut self) {
        for drive in 0..DRIVES {
            self.rescues.drop_kept(drive);
        }
    }

    /// Gives the console the file that it wants.
    fn fetch(&mut self) {
        let Some(name) = self.console.name() else {
            return;
        };
        let is_pack = self.console.is_pack();
        let drive = self.console.drive();
        let copy = Vec::from_slice(self.rt.alloc(), name);
        let file = self.files.fetch(name, is_pack);
        self.console.fetched(self.rt.alloc(), file);
        if let (Some(drive), Ok(name)) = (drive, copy) {
            if is_pack && self.console.is_done() {
                self.files.mounted(drive, name.as_slice());
                self.rescues.mounted(drive, name.as_slice());
            }
        }
    }

    /// Writes the file that the console wants written.
    fn put(&mut self) {
        let (Some(drive), Some(name), Some(image)) = (
            self.console.drive(),
            self.console.name(),
            self.console.image(),
        ) else {
            return;
        };
        let may_replace = self.console.may_replace();
        let done = self.files.put(drive, name, image, may_replace);
        self.console.put(self.rt.alloc(), done);
        if self.console.is_done() {
            self.rescues.drop_kept(drive);
        }
    }

    /// Gives the console names of files.
    fn give_names(&mut self) {
        let names = names_of(self.rt, self.top, self.console.front());
        let mut parts = Vec::new(self.rt.alloc());
        for name in &names {
            let _ = parts.push(name.as_slice());
        }
        self.console.names(self.rt.alloc(), parts.as_slice());
    }
}
