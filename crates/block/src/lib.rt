// A walk's block of 23 bytes at the C boundary: the state in it read, and a state stored with what it told last.
#![tactic(auto)]

ghost use Rattle.std.specs.Prelude.{◌≡◌};
ghost use Rattle.octets.specs.Stores.{put};
ghost use Rattle.block.specs.WalkBytes.{told_bytes, step_bytes, state_in};

use walk::{Item, Position, State};

// The walk's state, as its first eleven bytes have it.
pub fn state_in(walk: &[u8]) -> State
    ensures { result ≡ state_in walk.now }
{
    let position = Position {
        place: octets::eight(walk, 0),
        misses: octets::byte(walk, 8),
        lock: octets::byte(walk, 9) == 1,
    };
    State {
        limit: octets::byte(walk, 10),
        position,
    }
}

// Kinds and numbers as C has them. The state in eleven bytes, and what it told last in twelve: its kind, number and place, and a frame's FCT and level. They are stored only where there is room for all of them.
pub fn put_told(out: &mut [u8], walk: State, kind: u8, number: u8, item: usize, fct: u8, level: u8)
    ensures { out.new ≡ put out.old 0 (told_bytes walk kind number item fct level) }
{
    if out.len() < 23 {
        return;
    }
    let position = walk.position;
    let misses = (position.misses % 256) as u8;
    let limit = (walk.limit % 256) as u8;
    let lock = u8::from(position.lock);
    putting::put8(out, 0, position.place);
    putting::put_bytes(out, 8, &[misses, lock, limit, kind, number]);
    putting::put8(out, 13, item);
    putting::put_bytes(out, 21, &[fct, level]);
}

// The same of an item.
pub fn put_item(out: &mut [u8], walk: State, item: Item)
    ensures { out.new ≡ put out.old 0 (step_bytes item walk) }
{
    match item {
        Item::Frame(p, h) => put_told(out, walk, 0, 0, p, h.fct, h.level),
        Item::Lost(p, refusal) => put_told(out, walk, 1, refusal.number(), p, 0, 0),
        Item::Idle(p) => put_told(out, walk, 2, 4, p, 0, 0),
        Item::Done(p) => put_told(out, walk, 3, 0, p, 0, 0),
    }
}
