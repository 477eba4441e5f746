// A new file is written, and takes another one's place once the disk has all its bytes.
ghost use Rattle.std.specs.Prelude.{◌≡◌, ◌<◌, ℕ, Some, List, [], ◌∷◌, ◌++◌, length, IfErr, OnOk};
ghost use Rattle.p11_files.specs.Disks.{CutFill, DiskCall, FailsToFill, Fills, Writes, well, with_calls};
ghost use Rattle.p11_files.specs.Faults.{text_of};

use crate::disk::{Act, Disk};
use crate::file_fault::FileFault;
use std::fs::Metadata;

/// Writes all of some bytes to the new file.
#[tactic(auto, using(crate::proofs::FillLemmas::none_wrote, crate::proofs::FillLemmas::all_wrote, crate::proofs::FillLemmas::cut_wrote))]
fn write_whole<D: Disk>(disk: &mut D, bytes: &[u8]) -> Result<(), FileFault>
    ensures ok { OnOk result ((writes : List DiskCall) × Writes bytes.now writes
        × (D.state disk.new ≡ with_calls writes (D.state disk.old))) }
    ensures err { IfErr result (λ fault. (writes : List DiskCall) × (front : List ℕ) × (rest : List ℕ) × (failed : DiskCall)
        × Writes front writes × (0 < length rest) × (bytes.now ≡ front ++ rest) × (failed.reason ≡ Some (text_of fault))
        × (D.state disk.new ≡ with_calls (writes ++ failed ∷ []) (D.state disk.old))) }
{
    let mut rest = bytes;
    while !rest.is_empty() {
        let count = disk.write(rest)?;
        rest = &rest[count..];
    }
    Ok(())
}

/// Gives the new file its bytes, brings them to the disk and then names it so. A file that fails isn't taken away.
fn write_and_name<D: Disk>(
    disk: &mut D,
    new: &str,
    path: &str,
    old: &Option<Metadata>,
    bytes: &[u8],
) -> Result<(), FileFault>
    ensures ok { OnOk result ((writes : List DiskCall) × Writes bytes.now writes × (D.state disk.new
        ≡ with_calls (writes ++ well Act.Sync [] [] ∷ well Act.Rename new.now path.now ∷ []) (D.state disk.old))) }
    ensures err { IfErr result (λ fault. (front : List DiskCall) × (more : List DiskCall) × (failed : DiskCall)
        × CutFill new.now path.now bytes.now fault front more failed
        × (D.state disk.new ≡ with_calls (front ++ failed ∷ []) (D.state disk.old))) }
{
    if let Err(fault) = write_whole(disk, bytes) {
        return Err(fault);
    }
    if let Err(fault) = disk.sync(old) {
        return Err(fault);
    }
    if let Err(fault) = disk.rename(new, path) {
        return Err(fault);
    }
    Ok(())
}

/// Gives the new file its bytes, and then the path, in place of what had it: only when all of them are on the disk. Where
/// that fails the new file is taken away, and what had the path stays. Then the entry of the path is brought to the disk.
///
/// # Errors
///
/// Why a call failed, after which no other is made but the removal.
pub fn fill<D: Disk>(
    disk: &mut D,
    new: &str,
    path: &str,
    old: &Option<Metadata>,
    bytes: &[u8],
) -> Result<(), FileFault>
    ensures ok { OnOk result ((calls : List DiskCall) × Fills new.now path.now bytes.now calls
        × (D.state disk.new ≡ with_calls calls (D.state disk.old))) }
    ensures err { IfErr result (λ fault. (calls : List DiskCall) × FailsToFill new.now path.now bytes.now fault calls
        × (D.state disk.new ≡ with_calls calls (D.state disk.old))) }
{
    if let Err(fault) = write_and_name(disk, new, path, old, bytes) {
        let _ = disk.remove(new);
        return Err(fault);
    }
    if let Err(fault) = disk.settle(path) {
        return Err(fault);
    }
    Ok(())
}
