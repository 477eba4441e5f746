// What the program says by itself, beside what the console says.
use p11_shown::{Outlet, OutletFault};
use std::alloc::Global;
use std::io::Write;

/// Says a text where a terminal may be: what passes to its screen.
pub(crate) fn say<W: Write + Drop>(
    alloc: Global,
    writer: W,
    text: &str,
) -> Result<(), OutletFault> {
    Outlet::new(writer, false).write(alloc, text.as_bytes())
}

/// Says a line on standard error. Where that fails it stays unsaid.
pub(crate) fn notice(rt: &HostRuntime, text: &str) {
    if let Ok(line) = format!(in rt.alloc(); "terminal: {text}\n") {
        let _ = say(rt.alloc(), rt.stderr(), line.as_str());
    }
}
