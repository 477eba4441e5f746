// A session over bytes.
ghost use Rattle.std.specs.Prelude.{◌≡◌, ◌<◌, ◌⊎◌, ℕ, List, [], IfOk, IfErr};
ghost use Rattle.std.specs.List.{All};
ghost use Rattle.p11_cpu.specs.Operator.{new_machine};
ghost use Rattle.p11_store.specs.Calls.Files.{store_of};
ghost use Rattle.p11_panel.specs.Script.{script_lines};
ghost use Rattle.p11_panel.specs.Session.{with_store, LineDoes, ScriptDone};
ghost use Rattle.p11_handles.specs.Calls.{PlaysOver, SessionGives, Refuses, TookManyReads, HandsOut, asked_for, lent};
ghost use Rattle.p11_handles.specs.Rows.{Fits};
ghost use Rattle.p11_handles.specs.Typed.{typed_in};

use crate::rows::{read_row, write_row};
use crate::script::Script;
use crate::status::Status;
use crate::store::{RowStore, StoredFile};
use crate::typed::typed_bytes;
use p11_panel::{Config, Panel, SessionFault, StdWriter, session};
use std::alloc::Global;
use std::marker::Brand;
use std::sync::ledger::{Blank, Ledger};

/// What a session gives.
#[derive(Drop)]
pub struct Given {
    /// The text of its answers.
    pub text: Vec<u8>,
    /// The row of the files after it.
    pub files: Vec<u8>,
}

/// Does a whole script: the text of its answers.
fn run_script<L: Ledger>(
    alloc: Global,
    panel: &mut Panel,
    store: &mut RowStore<L>,
    script: &[u8],
) -> Result<Vec<u8>, Status>
    ensures ok { IfOk result (λ text. (m : ℕ) × ScriptDone (LineDoes {A = Global}) (script_lines script.now)
        (with_store panel.old (store_of store.old)) (record { bytes = Some []; writes = None })
        (with_store panel.new (store_of store.new)) (record { bytes = Some text.items; writes = None }) m) }
    ensures err { IfErr result (λ status. (status ≡ Status.NoMemory)
        ⊎ ((status ≡ Status.TooLong) × TookManyReads script.now)) }
{
    let mut reader = Script::new(script);
    let mut writer = StdWriter {
        inner: Vec::new(alloc),
    };
    match session(alloc, panel, store, &mut reader, &mut writer) {
        Ok(_) => Ok(writer.inner),
        Err(SessionFault::Writing) => Err(Status::NoMemory),
        Err(SessionFault::Reading) => unreachable!(),
        Err(SessionFault::TooLong) => Err(Status::TooLong),
    }
}

/// Does a whole script over a store that has these files.
#[tactic(auto, unfolding(p11_panel::specs::Session::ScriptDone))]
fn play_files<L: Ledger>(
    alloc: Global,
    blank: Blank,
    panel: &mut Panel,
    files: Vec<StoredFile>,
    script: &[u8],
) -> Result<Given, Status>
    requires name { blank.name ≡ L.name }
    requires parts { blank.parts ≡ L.parts }
    requires some { 0 < blank.parts }
    requires fit { All Fits files.items }
    ensures ok { IfOk result (λ given.
        PlaysOver Global panel.old files.items script.now given.text.items given.files.items) }
    ensures err { IfErr result (λ status. (status ≡ Status.NoMemory)
        ⊎ ((status ≡ Status.TooLong) × TookManyReads script.now)) }
{
    let mut store = RowStore::<L>::new(alloc, blank, files);
    let text = run_script(alloc, panel, &mut store, script)?;
    let files = write_row(alloc, store.files())?;
    Ok(Given { text, files })
}

/// Does a whole script on a new machine, over a store that has these files.
fn play_new(
    alloc: Global,
    config: Config,
    files: Vec<StoredFile>,
    script: &[u8],
) -> Result<Given, Status>
    requires fit { All Fits files.items }
    ensures ok { IfOk result (λ given.
        PlaysOver Global (new_machine config.kwords) files.items script.now given.text.items given.files.items) }
    ensures err { IfErr result (λ status. (status ≡ Status.NoMemory)
        ⊎ ((status ≡ Status.TooLong) × TookManyReads script.now)) }
{
    let Ok(mut panel) = Panel::new(alloc, config) else {
        return Err(Status::NoMemory);
    };
    play_files::<Brand>(alloc, Blank::new(1), &mut panel, files, script)
}

/// Does a whole script on a new machine of these sizes, over a store that has the files of a row.
///
/// # Errors
///
/// `BadSize` for sizes that no machine has, then `BadFiles` for bytes that are no row of files; `NoMemory`, and
/// `TooLong` for a script that isn't read to its end.
pub fn play(
    alloc: Global,
    kwords: u32,
    lines: u32,
    script: &[u8],
    files: &[u8],
) -> Result<Given, Status>
    ensures ok { IfOk result (λ given.
        SessionGives Global (asked_for kwords lines script.now files.now) given.text.items given.files.items) }
    ensures err { IfErr result (λ status. Refuses status (asked_for kwords lines script.now files.now)) }
{
    let Ok(config) = Config::new(kwords, lines) else {
        return Err(Status::BadSize);
    };
    match read_row(alloc, files) {
        Ok(files) => play_new(alloc, config, files, script),
        Err(status) => Err(status),
    }
}

/// What the lines of a text show, in its place.
fn shown(alloc: Global, given: Given) -> Result<Given, Status>
    ensures ok { IfOk result (λ shown. (shown.text.items ≡ typed_in given.text.items)
        × (shown.files.items ≡ given.files.items)) }
    ensures err { IfErr result (λ status. status ≡ Status.NoMemory) }
{
    let Given { text, files } = given;
    let text = typed_bytes(alloc, text.as_slice())?;
    Ok(Given { text, files })
}

/// Plays as `play` does; of the text it gives only the typed bytes that its lines show.
pub fn play_typed(
    alloc: Global,
    kwords: u32,
    lines: u32,
    script: &[u8],
    files: &[u8],
) -> Result<Given, Status>
    ensures ok { IfOk result (λ given. (text : List ℕ) × (given.text.items ≡ typed_in text)
        × SessionGives Global (asked_for kwords lines script.now files.now) text given.files.items) }
    ensures err { IfErr result (λ status. Refuses status (asked_for kwords lines script.now files.now)) }
{
    match play(alloc, kwords, lines, script, files) {
        Ok(given) => shown(alloc, given),
        Err(status) => Err(status),
    }
}

/// Copies what is handed out into the caller's buffers, if both have room for it; each is told the length.
#[tactic(auto, unfolding(crate::specs::Calls::HandsOut))]
pub fn hand_out(
    text: &[u8],
    files: &[u8],
    out: &mut [u8],
    out_length: &mut usize,
    list: &mut [u8],
    list_length: &mut usize,
) -> Status
    ensures { HandsOut result text.now files.now (lent out.old out_length.old) (lent list.old list_length.old)
        (lent out.new out_length.new) (lent list.new list_length.new) }
{
    *out_length = text.len();
    *list_length = files.len();
    if out.len() < text.len() {
        return Status::TooSmall;
    }
    if list.len() < files.len() {
        return Status::TooSmall;
    }
    out[..text.len()].copy_from_slice(text);
    list[..files.len()].copy_from_slice(files);
    Status::Done
}
