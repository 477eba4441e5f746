// Where the links of a name lead.
ghost use Rattle.std.specs.Prelude.{◌≡◌, ◌++◌, IfOk, string_bytes};

use crate::disk::Found;
use std::fs::Metadata;
use std::io::ErrorKind;
use std::{fs, io};

/// How many names are looked at where links lead from one to the next.
const MOST_LINKED: u32 = 40;

/// What a name leads to by its links, and its path.
pub(crate) fn located(rt: &HostRuntime, name: &str) -> io::Result<(Found, String)>
    ensures { IfOk result (λ r. string_bytes r.1 ≡ string_bytes r.0.folder ++ string_bytes r.0.last) }
{
    let mut path = String::from_str(rt.alloc(), name)?;
    for _ in 0..MOST_LINKED {
        match fs::symlink_metadata(rt, path.as_str()) {
            Ok(there) if there.is_symlink() => path = linked(rt, path.as_str())?,
            Ok(there) => return split(rt, path.as_str(), Some(there)),
            Err(error) if error.kind() == ErrorKind::NotFound => {
                return split(rt, path.as_str(), None);
            }
            Err(error) => return Err(error),
        }
    }
    Err(io::Error::from(ErrorKind::FilesystemLoop))
}

/// The folder of a path and the name in it.
fn split(rt: &HostRuntime, path: &str, old: Option<Metadata>) -> io::Result<(Found, String)>
    ensures { IfOk result (λ r. string_bytes r.1 ≡ string_bytes r.0.folder ++ string_bytes r.0.last) }
{
    let (folder, last) = match path.rsplit_once('/') {
        Some((folder, last)) => (format!(in rt.alloc(); "{folder}/")?, last),
        None => (String::new(rt.alloc()), path),
    };
    let mut whole = String::from_str(rt.alloc(), folder.as_str())?;
    whole.push_str(last)?;
    let last = String::from_str(rt.alloc(), last)?;
    Ok((Found { folder, last, old }, whole))
}

/// The path to which a link leads.
fn linked(rt: &HostRuntime, link: &str) -> io::Result<String> {
    let to = fs::read_link(rt, link)?;
    if to.as_str().starts_with('/') {
        return Ok(String::from_str(rt.alloc(), to.as_str())?);
    }
    match link.rsplit_once('/') {
        Some((folder, _)) => {
            let to = to.as_str();
            Ok(format!(in rt.alloc(); "{folder}/{to}")?)
        }
        None => Ok(String::from_str(rt.alloc(), to.as_str())?),
    }
}
