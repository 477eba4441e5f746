// The names of new files, and those that dead processes left.
ghost use Rattle.std.specs.Prelude.{◌≡◌, ℕ, List, ◌++◌, IfErr, IsTrue, codes, true};
ghost use Rattle.p11_files.specs.Faults.{is_own};

use crate::file_fault::FileFault;
use std::alloc::Global;
use std::fs::{Metadata, OpenOptions};
use std::os::unix::fs::MetadataExt;
use std::{fs, io};

/// With what the name of a new file begins. A number of the process and one of the file are behind it.
const FRONT: &str = ".p11-new-";

/// The name of a process's new file of that number.
pub(crate) fn new_name(alloc: Global, process: u32, number: u64) -> Result<String, FileFault>
    ensures { IfErr result (λ fault. is_own fault ≡ true) }
{
    Ok(format!(in alloc; "{FRONT}{process}-{number}")?)
}

/// Whether a name is one that a new file may have.
fn is_new_name(name: &str) -> bool
    ensures { IsTrue result → (behind : List ℕ) × (name.now ≡ codes ".p11-new-" ++ behind) }
{
    let Some(behind) = name.strip_prefix(FRONT) else {
        return false;
    };
    match behind.split_once('-') {
        Some((process, number)) => is_number(process) && is_number(number),
        None => false,
    }
}

fn is_number(text: &str) -> bool {
    !text.is_empty() && text.as_bytes().iter().all(u8::is_ascii_digit)
}

/// Takes away the new files of a folder that no process writes any more. What can't be looked at stays.
pub(crate) fn clear(rt: &HostRuntime, folder: &str) {
    let Ok(entries) = fs::read_dir(rt, folder) else {
        return;
    };
    for entry in entries {
        if let Ok(entry) = entry {
            if is_new_name(entry.file_name()) {
                let _ = take_away(rt, entry.path().as_str());
            }
        }
    }
}

/// Takes away a new file, unless its writer holds its lock, or the name is another file's by then.
fn take_away(rt: &HostRuntime, path: &str) -> io::Result<()> {
    if !fs::symlink_metadata(rt, path)?.is_file() {
        return Ok(());
    }
    let file = OpenOptions::new().write(true).open(rt, path)?;
    if file.try_lock().is_err() {
        return Ok(());
    }
    if is_at(rt, &file.metadata()?, path) {
        fs::remove_file(rt, path)?;
    }
    Ok(())
}

/// Whether that file is at a path.
pub(crate) fn is_at(rt: &HostRuntime, file: &Metadata, path: &str) -> bool {
    match fs::symlink_metadata(rt, path) {
        Ok(there) => there.ino() == file.ino() && there.dev() == file.dev(),
        Err(_) => false,
    }
}
