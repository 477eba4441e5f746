// The remark with which a record begins.
use crate::settings::{Launch, VERSION};
use std::alloc::AllocError;
use std::env;

/// The most bytes of what the launcher says.
const MOST_BYTES: usize = 1000;

/// A remark, with LF, that says which program makes the record, by what the launcher says or the version alone, and with which
/// options `p11` makes a machine of the same size.
pub(crate) fn remark(rt: &HostRuntime, launch: &Launch<'_>) -> Result<Vec<u8>, AllocError> {
    let mut text = Vec::from_slice(rt.alloc(), b"# ")?;
    match env::var(rt, "P11_ABOUT") {
        Ok(about) => {
            for byte in about.as_bytes().iter().take(MOST_BYTES) {
                let is_shown = b' ' <= *byte && *byte <= b'~';
                text.push(if is_shown { *byte } else { b' ' })?;
            }
        }
        Err(_) => {
            text.extend_from_slice(b"terminal ")?;
            text.extend_from_slice(VERSION.as_bytes())?;
        }
    }
    let memory = launch.memory;
    let lines = launch.lines;
    let size = format!(in rt.alloc(); "; --memory {memory} --lines {lines}\n")?;
    text.extend_from_slice(size.as_bytes())?;
    Ok(text)
}
