// Lines of earlier dialogues, in a file of the owner's.
use crate::ending::Cause;
use p11_console::Console;
use p11_host::is_typed;
use std::fs;
use std::fs::{File, OpenOptions};
use std::io::ErrorKind;

/// Gives a console the lines that the file has, the oldest first: the file, for further ones. It is made where it isn't there.
pub(crate) fn open_past(
    rt: &HostRuntime,
    path: &str,
    console: &mut Console,
) -> Result<File, Cause> {
    match fs::read(rt, path) {
        Ok(lines) => {
            for line in lines.as_slice().split(|byte| *byte == b'\n') {
                if is_typed(line) {
                    console.remember(rt.alloc(), line)?;
                }
            }
        }
        Err(error) if error.kind() == ErrorKind::NotFound => {}
        Err(_) => return Err(Cause::NoHistory),
    }
    match OpenOptions::new().append(true).create(true).open(rt, path) {
        Ok(file) => Ok(file),
        Err(_) => Err(Cause::NoHistory),
    }
}
