// Packs that no file has, in files beside their images.
use crate::notice::notice;
use p11_files::{FileFault, SystemDisk, replace_file};
use p11_host::rescue_mode;
use std::fs::OpenOptions;
use std::io::ErrorKind;
use std::os::unix::fs::{MetadataExt, OpenOptionsExt};
use std::{env, fs, process};

/// The most names that are tried.
const MOST_NAMES: u32 = 10_000;

/// A pack in a drive: the path of its image, and the file in which it is kept, if it is.
#[derive(Drop)]
struct Pack {
    drive: u32,
    path: String,
    kept: Option<String>,
}

/// The packs that were mounted, and the files in which they are kept.
#[derive(Drop)]
pub(crate) struct Rescues<'a> {
    rt: &'a HostRuntime,
    /// The folder below which names are looked up.
    top: Option<&'a str>,
    packs: Vec<Pack>,
}

impl<'a> Rescues<'a> {
    pub(crate) fn new(rt: &'a HostRuntime, top: Option<&'a str>) -> Self {
        Rescues {
            rt,
            top,
            packs: Vec::new(rt.alloc()),
        }
    }

    /// A pack of this name was mounted on a drive. What an earlier dialogue has kept of it is said. Without memory it is unknown.
    pub(crate) fn mounted(&mut self, drive: u32, name: &[u8]) {
        self.packs.retain(|pack| pack.drive != drive);
        let Ok(path) = self.path_of(name) else {
            return;
        };
        say_earlier(self.rt, path.as_str());
        let kept = None;
        let _ = self.packs.push(Pack { drive, path, kept });
    }

    /// Keeps the pack of a drive as it is now: the file that has it.
    pub(crate) fn keep(&mut self, drive: u32, image: &[u8]) -> Result<String, FileFault> {
        for pack in &mut self.packs {
            if pack.drive == drive {
                return keep_pack(self.rt, pack, image);
            }
        }
        Err(FileFault::NoMemory)
    }

    /// Takes the file away in which the pack of a drive was kept.
    pub(crate) fn drop_kept(&mut self, drive: u32) {
        for pack in &mut self.packs {
            if pack.drive == drive {
                if let Some(kept) = &pack.kept {
                    let _ = fs::remove_file(self.rt, kept.as_str());
                }
                pack.kept = None;
            }
        }
    }

    fn path_of(&self, name: &[u8]) -> Result<String, FileFault> {
        let Ok(name) = str::from_utf8(name) else {
            return Err(FileFault::NotUtf8);
        };
        match self.top {
            Some(top) => Ok(format!(in self.rt.alloc(); "{top}/{name}")?),
            None => Ok(String::from_str(self.rt.alloc(), name)?),
        }
    }
}

/// Says which files an earlier dialogue has left of the image of this path.
fn say_earlier(rt: &HostRuntime, path: &str) {
    if let Ok(beside) = format!(in rt.alloc(); "{path}.rescue") {
        say_those_of(rt, path, beside.as_str());
    }
    if let Ok(apart) = path_apart(rt, path) {
        say_those_of(rt, path, apart.as_str());
    }
}

fn say_those_of(rt: &HostRuntime, path: &str, rescue: &str) {
    for number in 0..MOST_NAMES {
        let Ok(name) = numbered(rt, rescue, number) else {
            return;
        };
        if fs::metadata(rt, name.as_str()).is_err() {
            return;
        }
        if let Ok(text) = format!(in rt.alloc();
            "{name} is there: an earlier dialogue was cut off, and left {path} so"
        ) {
            notice(rt, text.as_str());
        }
    }
}

/// Keeps a pack in its file, or in a new one.
fn keep_pack(rt: &HostRuntime, pack: &mut Pack, image: &[u8]) -> Result<String, FileFault> {
    let file = match &pack.kept {
        Some(kept) => {
            replace(rt, kept.as_str(), image)?;
            String::from_str(rt.alloc(), kept.as_str())?
        }
        None => new_rescue(rt, pack.path.as_str(), image)?,
    };
    pack.kept = Some(String::from_str(rt.alloc(), file.as_str())?);
    Ok(file)
}

/// Leaves these bytes in a file, all of them, or the file as it is.
fn replace(rt: &HostRuntime, path: &str, image: &[u8]) -> Result<(), FileFault> {
    let mut disk = SystemDisk::new(rt);
    replace_file(&mut disk, rt.alloc(), None, path.as_bytes(), image)
}

/// Keeps a pack in a new file, beside its image or else in the user's folder for what programs leave.
fn new_rescue(rt: &HostRuntime, path: &str, image: &[u8]) -> Result<String, FileFault> {
    let image_mode = mode_of(rt, path);
    let mode = rescue_mode(image_mode);
    if image_mode.is_some() {
        let beside = format!(in rt.alloc(); "{path}.rescue")?;
        if let Ok(file) = leave(rt, beside.as_str(), mode, image) {
            return Ok(file);
        }
    }
    fs::create_dir_all(rt, state_folder(rt)?.as_str())?;
    let apart = path_apart(rt, path)?;
    leave(rt, apart.as_str(), mode, image)
}

/// The mode of the file of this path, if it is one.
fn mode_of(rt: &HostRuntime, path: &str) -> Option<u32> {
    let there = fs::metadata(rt, path).ok()?;
    if there.is_file() {
        Some(there.mode())
    } else {
        None
    }
}

/// Leaves bytes in a file of this path, or of the path with the first number behind it that is free. Until it has all its
/// bytes its name is one that no other process has.
fn leave(rt: &HostRuntime, path: &str, mode: u32, image: &[u8]) -> Result<String, FileFault> {
    let process = process::id(rt.process());
    let own = format!(in rt.alloc(); "{path}-{process}")?;
    OpenOptions::new()
        .write(true)
        .create_new(true)
        .mode(mode)
        .open(rt, own.as_str())?;
    if let Err(fault) = replace(rt, own.as_str(), image) {
        let _ = fs::remove_file(rt, own.as_str());
        return Err(fault);
    }
    for number in 0..MOST_NAMES {
        let name = numbered(rt, path, number)?;
        match fs::hard_link(rt, own.as_str(), name.as_str()) {
            Ok(()) => {
                let _ = fs::remove_file(rt, own.as_str());
                return Ok(name);
            }
            Err(error) if error.kind() == ErrorKind::AlreadyExists => {}
            Err(_) => return Ok(own),
        }
    }
    Ok(own)
}

fn numbered(rt: &HostRuntime, path: &str, number: u32) -> Result<String, FileFault> {
    if number == 0 {
        return Ok(String::from_str(rt.alloc(), path)?);
    }
    Ok(format!(in rt.alloc(); "{path}.{number}")?)
}

/// The path of a rescue that isn't beside its image: its name has all of the image's path.
fn path_apart(rt: &HostRuntime, path: &str) -> Result<String, FileFault> {
    let mut apart = state_folder(rt)?;
    apart.push('/')?;
    let whole = fs::canonicalize(rt, path)?;
    for part in whole.as_str().split('/') {
        if !part.is_empty() {
            apart.push('%')?;
            apart.push_str(part)?;
        }
    }
    apart.push_str(".rescue")?;
    Ok(apart)
}

/// The user's folder for what programs leave.
fn state_folder(rt: &HostRuntime) -> Result<String, FileFault> {
    if let Ok(folder) = env::var(rt, "XDG_STATE_HOME") {
        return Ok(format!(in rt.alloc(); "{folder}/p11")?);
    }
    match env::var(rt, "HOME") {
        Ok(home) => Ok(format!(in rt.alloc(); "{home}/.local/state/p11")?),
        Err(_) => Err(FileFault::NotThere),
    }
}
