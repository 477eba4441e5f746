// The names of a folder's files.
use std::alloc::AllocError;
use std::fs;

/// The files whose names begin so, behind their folder where one is named; of a folder with `/` behind it. Where names are those
/// of files below a folder, it is `top`. Those for which there is no memory are left out.
pub(crate) fn names_of(rt: &HostRuntime, top: Option<&str>, front: &[u8]) -> Vec<Vec<u8>> {
    let mut names = Vec::new(rt.alloc());
    let Ok(front) = str::from_utf8(front) else {
        return names;
    };
    let (folder, begun) = match front.rsplit_once("/") {
        Some((folder, begun)) => (Some(folder), begun),
        None => (None, front),
    };
    if top.is_some() && front.split('/').any(|step| step == "..") {
        return names;
    }
    let Ok(path) = folder_path(rt, top, folder) else {
        return names;
    };
    let Ok(entries) = fs::read_dir(rt, path.as_str()) else {
        return names;
    };
    for entry in entries {
        let Ok(entry) = entry else {
            return names;
        };
        let name = entry.file_name();
        let is_hidden = begun.is_empty() && name.starts_with(".");
        if name.starts_with(begun) && !is_hidden {
            let is_folder = match fs::metadata(rt, entry.path()) {
                Ok(there) => there.is_dir(),
                Err(_) => false,
            };
            if let Ok(path) = path_of(rt, folder, name, is_folder) {
                let _ = names.push(path);
            }
        }
    }
    names
}

/// The path of a folder that is named before a slash, or of the one in which names are looked up.
fn folder_path(
    rt: &HostRuntime,
    top: Option<&str>,
    folder: Option<&str>,
) -> Result<String, AllocError> {
    let mut path = String::new(rt.alloc());
    for part in [top, folder] {
        if let Some(part) = part {
            path.push_str(part)?;
            path.push('/')?;
        }
    }
    if path.as_str().is_empty() {
        path.push('.')?;
    }
    Ok(path)
}

/// The name of a file in a folder, with `/` behind it where it is a folder itself.
fn path_of(
    rt: &HostRuntime,
    folder: Option<&str>,
    name: &str,
    is_folder: bool,
) -> Result<Vec<u8>, AllocError> {
    let mut path = String::new(rt.alloc());
    if let Some(folder) = folder {
        path.push_str(folder)?;
        path.push('/')?;
    }
    path.push_str(name)?;
    if is_folder {
        path.push('/')?;
    }
    Ok(path.into_bytes())
}
