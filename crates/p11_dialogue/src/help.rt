// What help says.
use crate::forms::{Form, form_at};
use crate::note::{Subject, Topic};
use crate::text::Text;
use p11_phrases::WORDS;
use std::alloc::Allocator;

/// The order in which the list has the lines, by the places of their words.
const ORDER: [usize; WORDS] = [
    18, 14, 13, 7, 5, 6, 15, 12, 16, 11, 8, 9, 10, 0, 1, 2, 3, 4, 17, 19, 20, 21,
];

/// How wide the list's first column is.
const COLUMN: usize = 26;

/// The list of lines, or what there is about one word.
pub fn help_on<A: Allocator>(alloc: A, topic: &Topic) -> Text<A> {
    let mut text = Text::new(alloc);
    match topic.subject() {
        Subject::All => add_list(&mut text),
        Subject::Word(place) => {
            if let Some(form) = form_at(place) {
                add_all(&mut text, form);
            }
        }
        Subject::Unknown => {
            text.add(b"There is help for one of these words:\n");
            add_list(&mut text);
        }
    }
    text
}

fn add_list<A: Allocator>(text: &mut Text<A>) {
    for place in &ORDER {
        if let Some(form) = form_at(*place) {
            add_line(text, form);
        }
    }
    text.add(b"Octal addresses, decimal counts. Beginnings will do. help WORD says more.\n");
}

/// A line of the list.
fn add_line<A: Allocator>(text: &mut Text<A>, form: &Form) {
    text.add(form.shown.as_bytes());
    for _ in form.shown.len()..COLUMN {
        text.add(b" ");
    }
    text.add(form.deed.as_bytes());
    text.add(b"\n");
}

/// All that there is about one line.
fn add_all<A: Allocator>(text: &mut Text<A>, form: &Form) {
    text.add(form.shown.as_bytes());
    add_field(text, "\n  ", form.deed);
    for part in form.wanted {
        add_field(text, "\n  with ", part.meaning());
    }
    if let Some((part, _)) = form.more {
        add_field(text, "\n  then, if you like, ", part.meaning());
    }
    add_field(text, "\n  example: ", form.example);
    if !form.short.is_empty() {
        add_field(text, "\n  at a terminal also: ", form.short);
    }
    add_field(text, "\n  answers: ", form.answer);
    text.add(b"\n");
}

/// A text, and what it is.
fn add_field<A: Allocator>(text: &mut Text<A>, name: &str, field: &str) {
    text.add(name.as_bytes());
    text.add(field.as_bytes());
}
