// What the screen gets.
ghost use Rattle.std.specs.Prelude.{◌≡◌, ◌≤◌, ◌+◌, ◌++◌, length, take, drop};
ghost use Rattle.p11_line_editor.specs.Screen.{width, prompt_part, room, first_shown, shown_part, front_part, drawn};
ghost use Rattle.p11_line_editor.specs.Screen.{picture_of_line, picture};

use crate::line::EditedLine;
use crate::outcome::Outcome;
use arrayvec::ArrayVec;

/// Bytes for the screen.
pub type Picture = ArrayVec<u8, 1100>;

/// The columns that a picture has, 10 to 500 (decimal).
fn width(columns: usize) -> usize
    ensures value { result ≡ width columns }
    ensures low { 10 ≤ result }
    ensures high { result ≤ 500 }
{
    columns.max(10).min(500)
}

/// The part of a prompt that shows.
fn prompt_part(prompt: &[u8], columns: usize) -> &[u8]
    ensures value { result.now ≡ prompt_part prompt.entry.now columns }
    ensures most { length result.now + length result.now ≤ width columns }
{
    let most = width(columns) / 2;
    &prompt[..most.min(prompt.len())]
}

/// How many characters of the line show, where the prompt takes so many columns.
fn room(prompt: &[u8], columns: usize) -> usize
    ensures value { result ≡ room prompt.now columns }
    ensures low { 1 ≤ result }
    ensures high { result + length (prompt_part prompt.now columns) + 1 ≤ 500 }
{
    width(columns) - 1 - prompt_part(prompt, columns).len()
}

/// A row: the prompt, what shows of the line, and the cursor in it.
fn draw(row: &mut Picture, prompt: &[u8], shown: &[u8], front: &[u8])
    requires kept { length row.old.items ≤ 10 }
    requires shown { length prompt.now + length shown.now ≤ 500 }
    requires front { length prompt.now + length front.now ≤ 500 }
    ensures { row.new.items ≡ row.old.items ++ drawn prompt.now shown.now front.now }
{
    add(row, b"\r");
    add(row, prompt);
    add(row, shown);
    add(row, b"\x1b[K\r");
    add(row, prompt);
    add(row, front);
}

/// Puts bytes behind others.
fn add(row: &mut Picture, bytes: &[u8])
    requires { length row.old.items + length bytes.now ≤ 1100 }
    ensures { row.new.items ≡ row.old.items ++ bytes.now }
{
    let _ = row.try_extend_from_slice(bytes);
}

/// The part of a text from a place on, at most so many bytes.
pub(crate) fn part(text: &[u8], from: usize, most: usize) -> &[u8]
    ensures value { result.now ≡ take most (drop from text.entry.now) }
    ensures most { length result.now ≤ most }
{
    let rest = &text[from.min(text.len())..];
    &rest[..most.min(rest.len())]
}

/// Draws the line behind what a row has.
fn draw_line(row: &mut Picture, prompt: &[u8], columns: usize, line: &EditedLine)
    requires { length row.old.items ≤ 10 }
    ensures { row.new.items ≡ row.old.items ++ picture_of_line prompt.now columns line.now }
{
    let room = room(prompt, columns);
    let text = line.text();
    let cursor = line.cursor();
    let first = (cursor + 1).saturating_sub(room);
    let shown = part(text, first, room);
    let front = part(text, first, cursor - first);
    draw(row, prompt_part(prompt, columns), shown, front);
}

/// What the screen gets after an outcome.
#[tactic(auto, unfolding(crate::specs::Screen::picture))]
pub(crate) fn picture_of(
    outcome: Outcome,
    prompt: &[u8],
    columns: usize,
    line: &EditedLine,
) -> Picture
    ensures { result.items ≡ picture outcome prompt.now columns line.now }
{
    let mut row = Picture::new();
    match outcome {
        Outcome::Typed(byte) => {
            if line.text().len() < room(prompt, columns) {
                add(&mut row, &[byte]);
            } else {
                draw_line(&mut row, prompt, columns, line);
            }
        }
        Outcome::Changed => draw_line(&mut row, prompt, columns, line),
        Outcome::Bell => add(&mut row, b"\x07"),
        Outcome::Cleared => {
            add(&mut row, b"\x1b[H\x1b[2J");
            draw_line(&mut row, prompt, columns, line);
        }
        _ => {}
    }
    row
}
