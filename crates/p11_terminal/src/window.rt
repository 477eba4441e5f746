// What the launcher tells in a file: the terminal's size, and a signal.
use std::fs;

/// What the launcher tells.
#[derive(Clone, Copy)]
pub(crate) enum Told {
    /// The columns of the terminal, and how often it was another program's for a while.
    Window(Window),
    /// A signal came that ends the dialogue.
    Over,
}

/// The columns of the terminal, and how often it was another program's for a while.
#[derive(Clone, Copy)]
pub(crate) struct Window {
    pub(crate) columns: usize,
    pub(crate) returns: u32,
}

/// What the launcher's file tells: rows, columns and returns in decimal, or `over`.
pub(crate) fn told_in(rt: &HostRuntime, file: &str) -> Option<Told> {
    let text = fs::read_to_string(rt, file).ok()?;
    let text = text.as_str().trim_end();
    if text == "over" {
        return Some(Told::Over);
    }
    Some(Told::Window(window_of(text)?))
}

fn window_of(text: &str) -> Option<Window> {
    let (_, behind) = text.split_once(" ")?;
    let (columns, returns) = behind.split_once(" ")?;
    match (columns.parse::<usize>(), returns.parse::<u32>()) {
        (Ok(0), _) => None,
        (Ok(columns), Ok(returns)) => Some(Window { columns, returns }),
        _ => None,
    }
}
