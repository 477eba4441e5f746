// A machine that is kept, with the files of its store and the text of its last answers.
ghost use Rattle.std.specs.Prelude.{◌≡◌, ◌<◌, ℕ, List, None, IfOk, option_copied};
ghost use Rattle.std.specs.List.{All};
ghost use Rattle.p11_handles.specs.Held.{kept_of, new_kept};
ghost use Rattle.p11_cpu.specs.OperatorDevices.{machine_devices_of};
ghost use Rattle.p11_store.specs.Calls.Files.{bytes_under};
ghost use Rattle.p11_handles.specs.HeldCalls.{LinesEnd, PutsFile, ForgetsFile};
ghost use Rattle.p11_handles.specs.HeldRuns.{RunEnds};
ghost use Rattle.p11_handles.specs.Registers.{told_registers};
ghost use Rattle.p11_handles.specs.Rows.{Fits, IsRow};

use crate::registers::{Registers, keys_waiting, tell_registers};
use crate::rows::write_row;
use crate::run::{Run, answer_text, make_run, tell_run};
use crate::script::Script;
use crate::status::Status;
use crate::store::{RowStore, StoredFile, add_file, find, fits, forget};
use p11_panel::{Answer, Config, NoMemory, Panel, SessionFault, StdWriter, session};
use std::alloc::{AllocError, Global};
use std::marker::{Brand, Model};
use std::mem::replace;
use std::sync::ledger::{Blank, Ledger};

/// What lines leave beside the machine.
#[derive(Drop)]
struct Played {
    status: Status,
    text: Vec<u8>,
    files: Vec<StoredFile>,
}

/// Does the lines of a script over a store that has refused nothing: how they ended, and their text.
fn run_lines<L: Ledger>(
    alloc: Global,
    panel: &mut Panel,
    store: &mut RowStore<L>,
    script: &[u8],
) -> (Status, Vec<u8>)
    requires none { store.old.refusals ≡ 0 }
    ensures { (answer : List ℕ) → LinesEnd Global script.now result.0 (kept_of panel.old store.old.files answer)
        (kept_of panel.new store.new.files result.1.items) }
{
    let mut reader = Script::new(script);
    let mut writer = StdWriter {
        inner: Vec::new(alloc),
    };
    match session(alloc, panel, store, &mut reader, &mut writer) {
        Ok(_) => (Status::Done, writer.inner),
        Err(SessionFault::Writing) => (Status::NoMemory, writer.inner),
        Err(SessionFault::Reading) => unreachable!(),
        Err(SessionFault::TooLong) => (Status::TooLong, writer.inner),
    }
}

/// Does the lines of a script over a store that has these files.
fn play_lines<L: Ledger>(
    alloc: Global,
    blank: Blank,
    panel: &mut Panel,
    files: Vec<StoredFile>,
    script: &[u8],
) -> Played
    requires name { blank.name ≡ L.name }
    requires parts { blank.parts ≡ L.parts }
    requires some { 0 < blank.parts }
    requires fit { All Fits files.items }
    ensures lines { (answer : List ℕ) → LinesEnd Global script.now result.status (kept_of panel.old files.items answer)
        (kept_of panel.new result.files.items result.text.items) }
    ensures fit { All Fits result.files.items }
{
    let mut store = RowStore::<L>::new(alloc, blank, files);
    let (status, text) = run_lines(alloc, panel, &mut store, script);
    Played {
        status,
        text,
        files: store.into_files(),
    }
}

/// A machine, the files of its store, and the text of its last answers.
#[derive(Drop)]
pub struct HeldMachine {
    panel: Panel,
    files: Vec<StoredFile>,
    answer: Vec<u8>,
}

impl Model for HeldMachine {
    ghost use Rattle.std.specs.List.{All};
    ghost use Rattle.p11_handles.specs.Held.{Kept};
    ghost use Rattle.p11_handles.specs.Rows.{Fits};

    ghost Value = { Kept };

    ghost view = { λ d. record { machine = d.panel; files = d.files.items; answer = d.answer.items } };

    ghost invariant = { λ d. All Fits d.files.items };
}

impl HeldMachine {
    /// A new machine with these files.
    pub(crate) fn new(
        alloc: Global,
        config: Config,
        files: Vec<StoredFile>,
    ) -> Result<Self, NoMemory>
        requires { All Fits files.items }
        ensures { IfOk result (λ machine. machine ≡ new_kept config.kwords files.items) }
    {
        let panel = Panel::new(alloc, config)?;
        Ok(HeldMachine {
            panel,
            files,
            answer: Vec::new(alloc),
        })
    }

    /// Does the lines of a script, as a session does them, and keeps their text.
    pub fn play(&mut self, alloc: Global, script: &[u8]) -> Status
        ensures { LinesEnd Global script.now result self.old self.new }
    {
        let files = replace(&mut self.files, Vec::new(alloc));
        let played = play_lines::<Brand>(alloc, Blank::new(1), &mut self.panel, files, script);
        let Played {
            status,
            text,
            files,
        } = played;
        self.files = files;
        self.answer = text;
        status
    }

    /// Puts a file into the store, in the place of any file of its name.
    #[tactic(auto, unfolding(crate::specs::HeldCalls::PutsFile))]
    pub fn put_file(&mut self, alloc: Global, name: &[u8], bytes: &[u8]) -> Status
        ensures { PutsFile name.now bytes.now result self.old self.new }
    {
        if !fits(name, bytes) {
            return Status::BadFiles;
        }
        let Ok(()) = add_file(alloc, &mut self.files, name, bytes) else {
            return Status::NoMemory;
        };
        Status::Done
    }

    /// Makes a run of so many turns, tells its numbers, and keeps the text of its answer.
    pub fn run(&mut self, alloc: Global, turns: u32, until_idle: bool, told: &mut Run) -> Status
        ensures { RunEnds Global until_idle turns result self.old told.old self.new told.new }
    {
        let answer = make_run(alloc, &mut self.panel, turns, until_idle);
        let Answer::Stop {
            typed: _,
            reason,
            turns: made,
            pc,
        } = &answer
        else {
            return Status::TooMany;
        };
        *told = tell_run(*made, *reason, *pc);
        let (status, text) = answer_text(alloc, &answer);
        self.answer = text;
        status
    }

    /// The last bytes under a name.
    pub(crate) fn file(&self, name: &[u8]) -> Option<&[u8]>
        ensures { option_copied result ≡ bytes_under None self.now.files name.now }
    {
        find(self.files.as_slice(), name)
    }

    /// Drops each file of a name.
    pub fn forget_file(&mut self, name: &[u8]) -> Status
        ensures { ForgetsFile name.now result self.old self.new }
    {
        let Some(_) = find(self.files.as_slice(), name) else {
            return Status::NoFile;
        };
        forget(&mut self.files, name);
        Status::Done
    }

    /// How many keys wait for the machine to take them.
    pub fn keys_waiting(&self) -> u32
        ensures { result ≡ (machine_devices_of self.now.machine).keys }
    {
        keys_waiting(&self.panel)
    }

    /// The registers of the machine.
    pub fn registers(&self) -> Registers
        ensures { result ≡ told_registers self.now.machine }
    {
        tell_registers(&self.panel)
    }

    /// The text of the last answers.
    pub fn answer(&self) -> &[u8]
        ensures { result.now ≡ self.now.answer }
    {
        self.answer.as_slice()
    }

    /// The row of the files.
    pub(crate) fn files(&self, alloc: Global) -> Result<Vec<u8>, AllocError>
        ensures { IfOk result (λ row. IsRow row.items self.now.files) }
    {
        write_row(alloc, self.files.as_slice())
    }
}
