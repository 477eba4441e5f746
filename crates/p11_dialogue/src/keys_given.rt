// The keys that the machine is given, and those that end a run or tell what ends it.
ghost use Rattle.std.specs.Prelude.{◌≡◌, ◌≤◌, length, IfOk};
ghost use Rattle.p11_dialogue.specs.Runs.{before_escape, given_keys, behind_escape, without_interrupt};

use crate::buffer::Buffer;
use crate::lines::line_end;
use crate::run::{escape_in, interrupt_in};
use p11_lines::{NoMemory, without_return};
use std::alloc::Allocator;

/// Keys that the machine is given, and how many of those that wait they are.
#[derive(Drop)]
pub struct GivenKeys<A: Allocator> {
    pub keys: Vec<u8, A>,
    pub count: usize,
}

/// The keys before a Ctrl-E.
fn before_escape(keys: &[u8]) -> &[u8]
    ensures keys { result.now ≡ before_escape keys.entry.now }
    ensures within { length result.now ≤ length keys.entry.now }
{
    match escape_in(keys) {
        Some(place) => &keys[..place],
        None => &keys[..keys.len()],
    }
}

/// The keys that the machine is given, of a person or a program, with so much room for them.
#[tactic(auto, unfolding(crate::specs::Runs::given_keys))]
pub fn given_keys<A: Allocator>(
    alloc: A,
    is_person: bool,
    keys: &[u8],
    room: u32,
) -> Result<GivenKeys<A>, NoMemory>
    ensures given { IfOk result (λ given. (given.keys.items, given.count) ≡ given_keys is_person keys.now room) }
    ensures within { IfOk result (λ given. given.count ≤ length keys.now) }
{
    let front = before_escape(&keys[..keys.len().min(room as usize)]);
    let mut given = Vec::new(alloc);
    if is_person {
        given.extend_from_slice(front)?;
        return Ok(GivenKeys {
            keys: given,
            count: front.len(),
        });
    }
    match line_end(front) {
        Some(place) => {
            given.extend_from_slice(without_return(&front[..place]))?;
            given.extend_from_slice(b"\r")?;
            Ok(GivenKeys {
                keys: given,
                count: place + 1,
            })
        }
        None => {
            given.extend_from_slice(front)?;
            Ok(GivenKeys {
                keys: given,
                count: front.len(),
            })
        }
    }
}

/// Takes the first Ctrl-E: of a talk with the keys before it, which the machine didn't take.
#[tactic(auto, unfolding(crate::specs::Runs::behind_escape))]
pub fn take_escape<A: Allocator>(keys: &mut Buffer<A>, is_talk: bool)
    ensures { keys.new ≡ behind_escape is_talk keys.old }
{
    let Some(place) = escape_in(keys.as_slice()) else {
        if is_talk {
            let len = keys.len();
            keys.drop_front(len);
        }
        return;
    };
    if is_talk {
        keys.drop_front(place + 1);
    } else {
        keys.remove(place);
    }
}

/// Takes the first Ctrl-C.
#[tactic(auto, unfolding(crate::specs::Runs::without_interrupt))]
pub fn take_interrupt<A: Allocator>(keys: &mut Buffer<A>)
    ensures { keys.new ≡ without_interrupt keys.old }
{
    if let Some(place) = interrupt_in(keys.as_slice()) {
        keys.remove(place);
    }
}
