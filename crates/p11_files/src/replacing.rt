// A file is given other bytes: all of them, or it stays as it is.
ghost use Rattle.std.specs.Prelude.{◌≡◌, ◌↔◌, ℕ, true, List, [], ◌∷◌, ◌++◌, IsTrue, IfOk, IfErr, OnOk, None, Some, Option, bit_and, option_copied, string_bytes};
ghost use Rattle.p11_files.specs.Disks.{Beside, FailsToPlace, FailsToReplace, Leads, OnlyLooked, Places, Replaces, WhyNot, well, with_calls};
ghost use Rattle.p11_files.specs.Faults.{is_own};

use crate::beneath::{is_below, joined, name_in, named_below};
use crate::disk::{Act, Disk};
use crate::file_fault::FileFault;
use crate::filling::fill;
use crate::leftovers::new_name;
use std::alloc::Global;
use std::fs::Metadata;
use std::os::unix::fs::MetadataExt;

/// The bit of a file's mode that lets its owner write.
const OWNER_WRITES: u32 = 0o200;

/// The mode of a file where there was none; the system takes from it what the user's mask says.
const NEW_MODE: u32 = 0o666;

/// The mode of a file that takes another one's place, until it has that one's.
const CLOSED_MODE: u32 = 0o600;

/// Where the bytes of a name go.
#[derive(Drop)]
struct Spot {
    /// The path of its folder, with which its own path begins.
    folder: String,
    path: String,
    /// What is there already.
    old: Option<Metadata>,
}

/// Leaves these bytes under a name, in the file to which its links lead: they are written to a new file beside it,
/// which then takes its place. So what was there stays whole where they can't be written. Only a file that may be
/// written is replaced, and no folder or device; where a folder is given, which has a slash behind it, one below it.
///
/// # Errors
///
/// Why a call failed, or why the program refuses it.
pub fn replace_file<D: Disk>(
    disk: &mut D,
    alloc: Global,
    folder: Option<&str>,
    name: &[u8],
    bytes: &[u8],
) -> Result<(), FileFault>
    ensures ok { OnOk result (Replaces (option_copied folder.entry) name.now bytes.now (D.state disk.old) (D.state disk.new)) }
    ensures err { IfErr result (λ fault. FailsToReplace (option_copied folder.entry) name.now bytes.now fault
        (D.state disk.old) (D.state disk.new)) }
{
    let done = replace(disk, alloc, folder, name, bytes);
    disk.close();
    done
}

/// The same, and leaves the new file open.
fn replace<D: Disk>(
    disk: &mut D,
    alloc: Global,
    folder: Option<&str>,
    name: &[u8],
    bytes: &[u8],
) -> Result<(), FileFault>
    ensures ok { OnOk result (Replaces (option_copied folder.entry) name.now bytes.now (D.state disk.old) (D.state disk.new)) }
    ensures err { IfErr result (λ fault. FailsToReplace (option_copied folder.entry) name.now bytes.now fault
        (D.state disk.old) (D.state disk.new)) }
{
    let Ok(name) = str::from_utf8(name) else {
        return Err(FileFault::NotUtf8);
    };
    match folder {
        Some(folder) => replace_below(disk, alloc, folder, name, bytes),
        None => replace_anywhere(disk, alloc, name, bytes),
    }
}

/// Replaces the file to which a name leads.
#[tactic(auto, using(crate::proofs::ReplaceLemmas::replaced, crate::proofs::ReplaceLemmas::not_found, crate::proofs::ReplaceLemmas::not_placed))]
fn replace_anywhere<D: Disk>(
    disk: &mut D,
    alloc: Global,
    name: &str,
    bytes: &[u8],
) -> Result<(), FileFault>
    ensures ok { OnOk result (Replaces None name.now bytes.now (D.state disk.old) (D.state disk.new)) }
    ensures err { IfErr result (λ fault. FailsToReplace None name.now bytes.now fault (D.state disk.old) (D.state disk.new)) }
{
    match find_anywhere(disk, alloc, name) {
        Ok(spot) => place(disk, alloc, &spot, bytes),
        Err(fault) => Err(fault),
    }
}

/// Replaces the file to which a name below a folder leads.
#[tactic(auto, using(crate::proofs::ReplaceLemmas::replaced, crate::proofs::ReplaceLemmas::not_found, crate::proofs::ReplaceLemmas::not_placed))]
fn replace_below<D: Disk>(
    disk: &mut D,
    alloc: Global,
    folder: &str,
    name: &str,
    bytes: &[u8],
) -> Result<(), FileFault>
    ensures ok { OnOk result (Replaces (Some folder.now) name.now bytes.now (D.state disk.old) (D.state disk.new)) }
    ensures err { IfErr result (λ fault. FailsToReplace (Some folder.now) name.now bytes.now fault
        (D.state disk.old) (D.state disk.new)) }
{
    match find_below(disk, alloc, folder, name) {
        Ok(spot) => place(disk, alloc, &spot, bytes),
        Err(fault) => Err(fault),
    }
}

/// Where a name leads, if a new file may take that place.
fn find_anywhere<D: Disk>(disk: &mut D, alloc: Global, name: &str) -> Result<Spot, FileFault>
    ensures made { (D.state disk.new).made ≡ (D.state disk.old).made }
    ensures ok { IfOk result (λ spot. Leads None name.now (string_bytes spot.path) (D.state disk.new)
        × ((D.state disk.new).reason ≡ (D.state disk.old).reason)
        × ((last : List ℕ) × (string_bytes spot.path ≡ string_bytes spot.folder ++ last))) }
    ensures err { IfErr result (λ fault. WhyNot fault (D.state disk.old) (D.state disk.new)) }
{
    let found = disk.locate(name)?;
    let path = joined(alloc, found.folder.as_str(), found.last.as_str())?;
    check_place(disk, name, path.as_str(), &found.old)?;
    Ok(Spot {
        folder: found.folder,
        path,
        old: found.old,
    })
}

/// Where a name below a folder leads, if a new file may take that place and it is below the folder.
fn find_below<D: Disk>(
    disk: &mut D,
    alloc: Global,
    folder: &str,
    name: &str,
) -> Result<Spot, FileFault>
    ensures made { (D.state disk.new).made ≡ (D.state disk.old).made }
    ensures ok { IfOk result (λ spot. Leads (Some folder.now) name.now (string_bytes spot.path) (D.state disk.new)
        × ((D.state disk.new).reason ≡ (D.state disk.old).reason)
        × ((last : List ℕ) × (string_bytes spot.path ≡ string_bytes spot.folder ++ last))) }
    ensures err { IfErr result (λ fault. WhyNot fault (D.state disk.old) (D.state disk.new)) }
{
    let named = named_below(alloc, folder, name)?;
    let found = disk.locate(named.as_str())?;
    let whole = disk.whole_folder(found.folder.as_str())?;
    if !is_below(folder, whole.as_str()) {
        return Err(FileFault::Outside);
    }
    let path = name_in(alloc, whole.as_str(), found.last.as_str())?;
    check_place(disk, named.as_str(), path.as_str(), &found.old)?;
    Ok(Spot {
        folder: whole,
        path,
        old: found.old,
    })
}

/// Refuses a place that no new file may take: what is there may not be replaced, or the system finds under the name
/// what has no path.
fn check_place<D: Disk>(
    disk: &mut D,
    named: &str,
    path: &str,
    old: &Option<Metadata>,
) -> Result<(), FileFault>
    ensures looked { OnlyLooked (D.state disk.old) (D.state disk.new) }
    ensures ok { OnOk result ((D.state disk.new).reason ≡ (D.state disk.old).reason) }
    ensures err { IfErr result (λ fault. WhyNot fault (D.state disk.old) (D.state disk.new)) }
{
    match old {
        Some(old) => check_old(disk, path, old),
        None => check_new(disk, named),
    }
}

/// Refuses what is no file, and a file that may not be written.
fn check_old<D: Disk>(disk: &mut D, path: &str, old: &Metadata) -> Result<(), FileFault>
    ensures looked { OnlyLooked (D.state disk.old) (D.state disk.new) }
    ensures ok { OnOk result ((D.state disk.new).reason ≡ (D.state disk.old).reason) }
    ensures err { IfErr result (λ fault. WhyNot fault (D.state disk.old) (D.state disk.new)) }
{
    if old.is_dir() {
        return Err(FileFault::Folder);
    }
    if !old.is_file() {
        return Err(FileFault::NotFile);
    }
    if is_protected(old.mode()) {
        return Err(FileFault::Protected);
    }
    disk.may_write(path)
}

/// Refuses a name that has no file, and under which the system finds something.
fn check_new<D: Disk>(disk: &mut D, named: &str) -> Result<(), FileFault>
    ensures looked { OnlyLooked (D.state disk.old) (D.state disk.new) }
    ensures ok { OnOk result ((D.state disk.new).reason ≡ (D.state disk.old).reason) }
    ensures err { IfErr result (λ fault. WhyNot fault (D.state disk.old) (D.state disk.new)) }
{
    match disk.is_there(named) {
        Ok(true) => Err(FileFault::Nameless),
        Ok(false) => Ok(()),
        Err(fault) => Err(fault),
    }
}

/// Whether a file's mode forbids its owner to write it.
fn is_protected(mode: u32) -> bool
    ensures { IsTrue result ↔ (bit_and mode 0o200 ≡ 0) }
{
    mode & OWNER_WRITES == 0
}

/// Makes a new file beside a place, gives it the bytes, and then the place.
#[tactic(auto, using(crate::proofs::ReplaceLemmas::placed, crate::proofs::ReplaceLemmas::not_made, crate::proofs::ReplaceLemmas::not_filled))]
fn place<D: Disk>(disk: &mut D, alloc: Global, spot: &Spot, bytes: &[u8]) -> Result<(), FileFault>
    requires { (last : List ℕ) × (string_bytes spot.now.path ≡ string_bytes spot.now.folder ++ last) }
    ensures ok { OnOk result (Places (string_bytes spot.now.path) bytes.now (D.state disk.old) (D.state disk.new)) }
    ensures err { IfErr result (λ fault. FailsToPlace (string_bytes spot.now.path) bytes.now fault
        (D.state disk.old) (D.state disk.new)) }
{
    disk.clear(spot.path.as_str());
    match make_new(disk, alloc, spot) {
        Ok(new) => fill(disk, new.as_str(), spot.path.as_str(), &spot.old, bytes),
        Err(fault) => Err(fault),
    }
}

/// Makes a new file beside a place, under a path that nothing has.
fn make_new<D: Disk>(disk: &mut D, alloc: Global, spot: &Spot) -> Result<String, FileFault>
    requires { (last : List ℕ) × (string_bytes spot.now.path ≡ string_bytes spot.now.folder ++ last) }
    ensures ok { IfOk result (λ new. Beside (string_bytes spot.now.path) (string_bytes new)
        × (D.state disk.new ≡ with_calls (well Act.Create (string_bytes new) [] ∷ []) (D.state disk.old))) }
    ensures err { IfErr result (λ fault. OnlyLooked (D.state disk.old) (D.state disk.new)
        × WhyNot fault (D.state disk.old) (D.state disk.new)) }
{
    let mode = match &spot.old {
        Some(_) => CLOSED_MODE,
        None => NEW_MODE,
    };
    for number in 0..u64::MAX {
        let name = new_name(alloc, disk.process(), number)?;
        let new = name_in(alloc, spot.folder.as_str(), name.as_str())?;
        if new.as_str() != spot.path.as_str() && disk.create_new(new.as_str(), mode)? {
            return Ok(new);
        }
    }
    Err(FileFault::Nameless)
}
