// A file of the system is read whole.
ghost use Rattle.std.specs.Prelude.{◌≡◌, true, false, [], ◌∷◌, ◌++◌, List, ℕ, None, Some, Option, IfOk, IfErr, OnOk, option_copied, string_bytes};
ghost use Rattle.p11_files.specs.Disks.{DiskCall, Names, Reads, ReadsFile, WhyNot, well, with_calls};

use crate::beneath::{is_below, named_below};
use crate::disk::{Act, Disk};
use crate::file_fault::FileFault;
use std::alloc::{Allocator, Global};
use std::fs;
use std::fs::Metadata;

/// Reads in one fetch at most, the one that finds the file's end among them.
const MOST_READS: u32 = 4096;

/// Bytes of one read at most.
const READ_BYTES: usize = 4096;

/// The bytes of a file, where its end is found in time: of one below a folder, where one is given. A pipe, a terminal or
/// another device, whose bytes come later or have no end, is refused unless it is to be waited for.
pub(crate) fn read_file<D: Disk, A: Allocator>(
    disk: &mut D,
    paths: Global,
    alloc: A,
    folder: Option<&str>,
    name: &[u8],
    waits: bool,
) -> Result<Vec<u8, A>, FileFault>
    ensures ok { IfOk result (λ bytes. ReadsFile (option_copied folder.entry) name.now bytes.items
        (D.state disk.old) (D.state disk.new)) }
    ensures err { IfErr result (λ fault. WhyNot fault (D.state disk.old) (D.state disk.new)) }
{
    let bytes = read_named(disk, paths, alloc, folder, name, waits);
    disk.close();
    bytes
}

/// The same, and leaves the file open.
#[tactic(auto, using(crate::proofs::ReadLemmas::read_whole, crate::proofs::ReplaceLemmas::why_later))]
fn read_named<D: Disk, A: Allocator>(
    disk: &mut D,
    paths: Global,
    alloc: A,
    folder: Option<&str>,
    name: &[u8],
    waits: bool,
) -> Result<Vec<u8, A>, FileFault>
    ensures ok { IfOk result (λ bytes. ReadsFile (option_copied folder.entry) name.now bytes.items
        (D.state disk.old) (D.state disk.new)) }
    ensures err { IfErr result (λ fault. WhyNot fault (D.state disk.old) (D.state disk.new)) }
{
    let Ok(name) = str::from_utf8(name) else {
        return Err(FileFault::NotUtf8);
    };
    match open_named(disk, paths, folder, name, waits) {
        Ok(()) => read_opened(disk, alloc),
        Err(fault) => Err(fault),
    }
}

/// Opens the file of a name.
fn open_named<D: Disk>(
    disk: &mut D,
    paths: Global,
    folder: Option<&str>,
    name: &str,
    waits: bool,
) -> Result<(), FileFault>
    ensures ok { OnOk result ((path : List ℕ) × Names (option_copied folder.entry) name.now path (D.state disk.new)
        × ((D.state disk.new).made ≡ (D.state disk.old).made ++ well Act.Open path [] ∷ [])
        × ((D.state disk.new).reason ≡ (D.state disk.old).reason)) }
    ensures err { IfErr result (λ fault. WhyNot fault (D.state disk.old) (D.state disk.new)) }
{
    match folder {
        Some(folder) => open_below(disk, paths, folder, name),
        None => open_anywhere(disk, name, waits),
    }
}

/// Opens the file of a name.
fn open_anywhere<D: Disk>(disk: &mut D, name: &str, waits: bool) -> Result<(), FileFault>
    ensures ok { OnOk result ((path : List ℕ) × Names None name.now path (D.state disk.new)
        × ((D.state disk.new).made ≡ (D.state disk.old).made ++ well Act.Open path [] ∷ [])
        × ((D.state disk.new).reason ≡ (D.state disk.old).reason)) }
    ensures err { IfErr result (λ fault. WhyNot fault (D.state disk.old) (D.state disk.new)) }
{
    disk.open(name, waits)
}

/// Opens a file below a folder.
fn open_below<D: Disk>(
    disk: &mut D,
    paths: Global,
    folder: &str,
    name: &str,
) -> Result<(), FileFault>
    ensures ok { OnOk result ((path : List ℕ) × Names (Some folder.now) name.now path (D.state disk.new)
        × ((D.state disk.new).made ≡ (D.state disk.old).made ++ well Act.Open path [] ∷ [])
        × ((D.state disk.new).reason ≡ (D.state disk.old).reason)) }
    ensures err { IfErr result (λ fault. WhyNot fault (D.state disk.old) (D.state disk.new)) }
{
    let named = named_below(paths, folder, name)?;
    let whole = disk.whole(named.as_str())?;
    if !is_below(folder, whole.as_str()) {
        return Err(FileFault::Outside);
    }
    disk.open(whole.as_str(), false)
}

/// Reads the open file to its end.
#[tactic(auto, using(crate::proofs::ReadLemmas::none_gave, crate::proofs::ReadLemmas::more_gave, crate::proofs::ReadLemmas::all_gave, crate::proofs::ReadLemmas::gave_reason, crate::proofs::ReplaceLemmas::why_later))]
fn read_opened<D: Disk, A: Allocator>(disk: &mut D, alloc: A) -> Result<Vec<u8, A>, FileFault>
    ensures ok { IfOk result (λ bytes. (reads : List DiskCall) × Reads bytes.items reads
        × (D.state disk.new ≡ with_calls (reads ++ well Act.Read [] [] ∷ []) (D.state disk.old))) }
    ensures err { IfErr result (λ fault. WhyNot fault (D.state disk.old) (D.state disk.new)) }
{
    let mut bytes = Vec::new(alloc);
    for _ in 0..MOST_READS {
        if !read_more(disk, &mut bytes)? {
            return Ok(bytes);
        }
    }
    Err(FileFault::TooLong)
}

/// Adds what one read gives; whether it gave anything.
fn read_more<D: Disk, A: Allocator>(disk: &mut D, bytes: &mut Vec<u8, A>) -> Result<bool, FileFault>
    ensures ok { IfOk result (λ more. (given : List ℕ) × (bytes.new.items ≡ bytes.old.items ++ given)
        × (D.state disk.new ≡ with_calls (well Act.Read [] given ∷ []) (D.state disk.old))
        × (more ≡ false → given ≡ [])) }
    ensures err { IfErr result (λ fault. WhyNot fault (D.state disk.old) (D.state disk.new)) }
{
    let mut buffer = [0u8; READ_BYTES];
    let count = disk.read(&mut buffer)?;
    bytes.extend_from_slice(&buffer[..count])?;
    Ok(count > 0)
}

/// Whether a file of that name is there.
pub(crate) fn is_file(rt: &HostRuntime, folder: Option<&str>, name: &[u8]) -> bool {
    match there_at(rt, folder, name) {
        Ok(there) => there.is_file(),
        Err(_) => false,
    }
}

/// What the system says of what is there under a name.
fn there_at(rt: &HostRuntime, folder: Option<&str>, name: &[u8]) -> Result<Metadata, FileFault> {
    let Ok(name) = str::from_utf8(name) else {
        return Err(FileFault::NotUtf8);
    };
    match folder {
        Some(folder) => {
            let path = named_below(rt.alloc(), folder, name)?;
            Ok(fs::metadata(rt, path.as_str())?)
        }
        None => Ok(fs::metadata(rt, name)?),
    }
}
