//! The machine under an operator: one command done and answered.
ghost use Rattle.std.specs.Prelude.{◌≡◌, ◌<◌, ◌≤◌, ◌+◌, ◌^◌, true, None, IfOk};
ghost use Rattle.p11_cpu.specs.Operator.{new_machine};
ghost use Rattle.p11_panel.specs.Calls.Runs.{run_command, StopsWithin, RunsWithin};
ghost use Rattle.p11_panel.specs.Commands.{CommandStep};
ghost use Rattle.p11_panel.specs.Confinement.{ConfinesRun, ConfinesStop};
ghost use Rattle.p11_panel.specs.Ranges.{all_answer, examine_fault};
ghost use Rattle.p11_panel.specs.Runs.{step_fault};

use crate::command::Command;
use crate::config::Config;
use crate::confined::a_user_run_is_confined;
use crate::run::run;
use p11_cpu::{ConsoleRegister, Machine};
use p11_lines::{Answer, Bytes, Fault, NoMemory, Words};
use std::alloc::{Allocator, Global};
use std::marker::Model;

/// A machine under an operator. A contract sees the machine's whole state.
pub struct Panel<A: Allocator = Global> {
    pub(crate) machine: Machine<A>,
}

// Written out, so that a value that ends is one call in whatever function holds it, and not a drop of each field there.
impl<A: Allocator> Drop for Panel<A> {
    fn drop(self) {
        let Panel { machine } = self;
    }
}

impl<A: Allocator> Model for Panel<A> {
    ghost use Rattle.p11_cpu.specs.State.{State};

    ghost Value = { State };

    ghost view = { λ p. p.machine.visible };
}

impl<A: Allocator + Copy> Panel<A> {
    /// A new machine of these sizes (chapter 16 of the book): zeros everywhere. The only error is want of memory, and
    /// nothing is handed out then.
    pub fn new(alloc: A, config: Config) -> Result<Self, NoMemory>
        ensures { IfOk result (λ p. p ≡ new_machine config.kwords) }
    {
        let machine = Machine::new(alloc, config.kwords(), config.lines())?;
        Ok(Panel { machine })
    }
}

impl<A: Allocator + Copy> Panel<A> {
    /// Does one command, and answers it (chapter 20 of the book).
    ///
    /// A refused command answers its first fault and changes nothing. A `Mount`, a `Save`, a `Changed`, a `Load` and an
    /// `Examine` of several words may find no memory, and answer `NoMemory` then; no other command does. A `Step` or a
    /// `Continue` that finds no memory for a turn stops before it, and answers the turns that it has made. One of a user
    /// program that memory management keeps off the I/O page, in which no service begins, leaves all memory that it
    /// doesn't reach, but for what disk reads store. Both answer `Stop`, with no more turns than were asked for, or
    /// `Refused`.
    pub fn act(&mut self, alloc: A, command: &Command<A>) -> Answer<A>
        ensures acts { CommandStep self.old command.now result self.new }
        ensures confined { ConfinesRun self.old command.now result self.new }
        ensures within { RunsWithin command.now result }
    {
        match command {
            Command::Mount {
                drive,
                image,
                protect,
            } => self.mount(alloc, *drive, image.as_slice(), *protect),
            Command::Unmount { drive } => self.unmount(*drive),
            Command::Save { drive } => self.save(alloc, *drive),
            Command::Changed { drive } => self.changed(alloc, *drive),
            Command::Load { tape } => self.load(alloc, tape.as_slice()),
            Command::Examine { address, count } => self.examine(alloc, *address, *count),
            Command::Deposit { address, words } => self.deposit(*address, words.as_slice()),
            Command::Start { address } => self.start(*address),
            Command::Key { text } => self.key(text.as_slice()),
            Command::Tick => self.tick(),
            Command::Clock { period } => self.clock(*period),
            Command::Switches { word } => self.switches(*word),
            Command::Set { register, value } => self.set(*register, *value),
            Command::Step { turns } => self.step(*turns),
            Command::Continue { turns } => self.continue_run(*turns),
            Command::Flush => self.flush(),
            Command::Regs => Answer::Registers(self.registers()),
            Command::Device => Answer::Devices(self.devices()),
        }
    }

    /// Does EXAMINE: answers so many words from an even bus address on; or says why not.
    fn examine(&mut self, alloc: A, address: u32, count: u32) -> Answer<A>
        ensures { CommandStep self.old (Command.Examine address count) result self.new }
    {
        if let Some(fault) = self.examine_refusal(address, count) {
            return Answer::Refused(fault);
        }
        self.show(alloc, address, count)
    }

    /// Reads so many words from an even address on, and answers what they show.
    #[tactic(auto, using(crate::proofs::RangeLemmas::first_answers))]
    fn show(&mut self, alloc: A, address: u32, count: u32) -> Answer<A>
        requires fault { examine_fault address count self.old ≡ None }
        requires some { 0 < count }
        requires answer { all_answer address count self.old ≡ true }
        ensures { CommandStep self.old (Command.Examine address count) result self.new }
    {
        if count == 1 {
            let word = self.machine.examine(address);
            return Answer::Word { address, word };
        }
        match self.words_at(alloc, address, count) {
            Ok(words) => Answer::Words {
                address,
                words: Words::from_vec(words),
            },
            Err(_) => Answer::Refused(Fault::NoMemory),
        }
    }

    /// Does DEPOSIT: writes words from an even bus address on, all or none; or says why not.
    fn deposit(&mut self, address: u32, words: &[u16]) -> Answer<A>
        ensures { CommandStep self.old (Command.Deposit address words.now) result self.new }
    {
        if let Some(fault) = self.deposit_refusal(address, words) {
            return Answer::Refused(fault);
        }
        self.deposit_all(address, words);
        Answer::Done
    }

    /// Does START: resets the bus and sets PC to an even address; or says why not.
    fn start(&mut self, address: u16) -> Answer<A>
        ensures { CommandStep self.old (Command.Start address) result self.new }
    {
        if address % 2 == 1 {
            return Answer::Refused(Fault::OddAddress);
        }
        self.machine.start(address);
        Answer::Done
    }

    /// Does KEY: presses the keys that give these bytes, all or none; or says why not.
    fn key(&mut self, text: &[u8]) -> Answer<A>
        ensures { CommandStep self.old (Command.Key text.now) result self.new }
    {
        if text.len() > self.machine.room() as usize {
            return Answer::Refused(Fault::KeysFull);
        }
        self.press_all(text);
        Answer::Done
    }

    /// Does TICK: lets the line clock tick.
    fn tick(&mut self) -> Answer<A>
        ensures { CommandStep self.old Command.Tick result self.new }
    {
        self.machine.tick();
        Answer::Done
    }

    /// Does CLOCK: lets the line clock tick by itself every so many turns, or with 0 no more.
    fn clock(&mut self, period: u32) -> Answer<A>
        ensures { CommandStep self.old (Command.Clock period) result self.new }
    {
        self.machine.set_period(period);
        Answer::Done
    }

    /// Does SWITCHES: sets the switch register.
    fn switches(&mut self, word: u16) -> Answer<A>
        ensures { CommandStep self.old (Command.Switches word) result self.new }
    {
        self.machine.set_switches(word);
        Answer::Done
    }

    /// Does FLUSH: drops all that is kept to find answers sooner.
    fn flush(&mut self) -> Answer<A>
        ensures { CommandStep self.old Command.Flush result self.new }
    {
        self.machine.flush();
        Answer::Done
    }

    /// Does SET: sets the register of an octal number, 0 to 11; or says why not.
    fn set(&mut self, register: u16, value: u16) -> Answer<A>
        ensures { CommandStep self.old (Command.Set register value) result self.new }
    {
        let Some(register) = ConsoleRegister::numbered(register) else {
            return Answer::Refused(Fault::BadRegister);
        };
        self.machine.set_reg(register, value);
        Answer::Done
    }

    /// Does STEP: makes so many turns, fewer where it halts or memory is refused; or says why not.
    fn step(&mut self, turns: u32) -> Answer<A>
        ensures acts { CommandStep self.old (Command.Step turns) result self.new }
        ensures confined { ConfinesRun self.old (Command.Step turns) result self.new }
        ensures within { StopsWithin turns result }
    {
        if let Some(fault) = self.step_refusal(turns) {
            return Answer::Refused(fault);
        }
        self.make_run(turns, false)
    }

    /// Does CONTINUE: makes turns as STEP does, and stops where the machine idles.
    fn continue_run(&mut self, turns: u32) -> Answer<A>
        ensures acts { CommandStep self.old (Command.Continue turns) result self.new }
        ensures confined { ConfinesRun self.old (Command.Continue turns) result self.new }
        ensures within { StopsWithin turns result }
    {
        if let Some(fault) = self.step_refusal(turns) {
            return Answer::Refused(fault);
        }
        self.make_run(turns, true)
    }

    /// Makes a run, and takes what was typed in it.
    fn make_run(&mut self, turns: u32, until_idle: bool) -> Answer<A>
        requires fault { step_fault turns self.old ≡ None }
        requires within { self.old.turns + turns ≤ 2 ^ 62 }
        ensures acts { CommandStep self.old (run_command until_idle turns) result self.new }
        ensures confined { ConfinesStop self.old result self.new }
        ensures within { StopsWithin turns result }
    {
        self.machine.state_is_well_formed();
        a_user_run_is_confined();
        let (made, reason) = run(&mut self.machine, turns, until_idle);
        let pc = self.machine.regs().pc;
        let typed = self.machine.take_typed();
        Answer::Stop {
            typed: Bytes::from_vec(typed),
            reason,
            turns: made,
            pc,
        }
    }
}
