// The lines of a text.
ghost use Rattle.std.specs.Prelude.{◌≡◌, length, drop, position, IfSome, ◌<◌};
ghost use Rattle.p11_lines.specs.LineEnd.{without_cr};
ghost use Rattle.p11_dialogue.specs.Lines.{is_line_feed, first_line, behind_line, line_before, behind_at};

use crate::buffer::Buffer;
use p11_lines::without_return;
use std::alloc::Allocator;

/// Where the first LF is.
#[tactic(auto, unfolding(crate::specs::Lines::is_line_feed))]
pub fn line_end(text: &[u8]) -> Option<usize>
    ensures { result ≡ position is_line_feed text.now }
{
    text.iter().position(|byte| *byte == b'\n')
}

/// The first line of a text, without its LF and a CR just before that.
#[tactic(auto, unfolding(crate::specs::Lines::first_line))]
pub fn first_line(text: &[u8]) -> &[u8]
    ensures { result.now ≡ first_line text.entry.now }
{
    match line_end(text) {
        Some(end) => without_return(&text[..end]),
        None => without_return(&text[..text.len()]),
    }
}

/// Takes the first line from the front.
#[tactic(auto, unfolding(crate::specs::Lines::behind_line))]
pub fn drop_line<A: Allocator>(text: &mut Buffer<A>)
    ensures { text.new ≡ behind_line text.old }
{
    match line_end(text.as_slice()) {
        Some(end) => text.drop_front(end + 1),
        None => text.drop_front(text.len()),
    }
}
