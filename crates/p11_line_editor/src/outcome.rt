// What a key has led to.
ghost use Rattle.std.specs.Prelude.{◌≡◌};
ghost use Rattle.p11_line_editor.specs.Telling.{told, told_of};

/// What a key has led to, and what the caller has to do about it.
#[derive(Clone, Copy, PartialEq, Eq)]
pub enum Outcome {
    /// This character was put at the end of the line.
    Typed(u8),
    /// The line or the cursor is another one: draw it.
    Changed,
    /// Nothing has changed: ring.
    Bell,
    /// Clear the screen, and draw the line.
    Cleared,
    /// Find the words that may stand where `word` is, and call `complete`.
    Complete,
    /// Several words may stand there, and they differ next: list them, and draw the line.
    List,
    /// The line is done.
    Done,
    /// The line was given up, and is empty.
    Interrupted,
    /// The end of the input was asked for.
    Ended,
}

/// How a change of the line is told, which was done or had no room.
pub(crate) fn told(is_done: bool) -> Outcome
    ensures { result ≡ told is_done }
{
    if is_done {
        Outcome::Changed
    } else {
        Outcome::Bell
    }
}

/// How a character is told, which was put at the end or elsewhere, or had no room.
pub(crate) fn told_of(byte: u8, is_last: bool, is_done: bool) -> Outcome
    ensures { result ≡ told_of byte is_last is_done }
{
    if is_done && is_last {
        return Outcome::Typed(byte);
    }
    told(is_done)
}
