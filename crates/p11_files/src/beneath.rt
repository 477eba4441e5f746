// The files below a folder, where a store reaches no others.
ghost use Rattle.std.specs.Prelude.{◌≡◌, ℕ, List, ◌++◌, IfOk, IfErr, string_bytes, IsTrue, true};
ghost use Rattle.p11_files.specs.Disks.{HasNoSlash};
ghost use Rattle.p11_files.specs.Faults.{is_own};

use crate::file_fault::FileFault;
use std::alloc::Global;
use std::fs;

/// The path of a folder without links, with a slash behind it.
pub(crate) fn whole_folder(rt: &HostRuntime, folder: &str) -> Result<String, FileFault> {
    if !fs::metadata(rt, folder)?.is_dir() {
        return Err(FileFault::NotFolder);
    }
    let whole = fs::canonicalize(rt, folder)?;
    let mut text = String::from_str(rt.alloc(), whole.as_str())?;
    if !text.as_str().ends_with('/') {
        text.push('/')?;
    }
    Ok(text)
}

/// The path of a name from a folder on. A name that begins at the root or leads up is refused.
pub(crate) fn named_below(alloc: Global, folder: &str, name: &str) -> Result<String, FileFault>
    ensures ok { IfOk result (λ path. string_bytes path ≡ folder.now ++ name.now) }
    ensures err { IfErr result (λ fault. is_own fault ≡ true) }
{
    if name.starts_with('/') || name.split('/').any(|step| step == "..") {
        return Err(FileFault::Outside);
    }
    joined(alloc, folder, name)
}

/// The path of a name in a folder whose path has its slash. What is no single name is refused.
pub(crate) fn name_in(alloc: Global, folder: &str, name: &str) -> Result<String, FileFault>
    ensures ok { IfOk result (λ path. (string_bytes path ≡ folder.now ++ name.now) × HasNoSlash name.now) }
    ensures err { IfErr result (λ fault. is_own fault ≡ true) }
{
    if name.as_bytes().contains(&b'/') {
        return Err(FileFault::Outside);
    }
    joined(alloc, folder, name)
}

/// Two texts, one behind the other.
pub(crate) fn joined(alloc: Global, front: &str, back: &str) -> Result<String, FileFault>
    ensures ok { IfOk result (λ text. string_bytes text ≡ front.now ++ back.now) }
    ensures err { IfErr result (λ fault. is_own fault ≡ true) }
{
    let mut text = String::from_str(alloc, front)?;
    text.push_str(back)?;
    Ok(text)
}

/// Whether a path is below a folder, or the folder: both with a slash behind them.
pub(crate) fn is_below(folder: &str, path: &str) -> bool
    ensures { IsTrue result → (behind : List ℕ) × (path.now ≡ folder.now ++ behind) }
{
    path.strip_prefix(folder).is_some()
}
