// Walking a live line: its bytes come in pieces, for ever, and few are kept. A step goes by a window of the line, its bytes from the walk's place on.
#![tactic(auto)]

ghost use Rattle.std.specs.Prelude.{true, ◌≡◌, ◌+◌, ◌<◌};
ghost use Rattle.walk.specs.ItemValues.{place_of};
ghost use Rattle.live.specs.Live.{placed_at, later_item, is_done, wants, standing, telling_at, waiting_at, over_at, live_at};
ghost use Rattle.live.specs.LiveClauses.{Telling, Hunts, Locks};

use frame::Stream;
use walk::{Item, Position, State, Step};

// What a step tells: the next item, with its place in the line, or that more bytes are wanted: all before that place may be forgotten.
// Not a Result: a line that wants more bytes is refused nothing.
#[derive(Clone, Copy)]
pub enum Told {
    Got(Item),
    More(usize),
}

// What is told, the stream table beside it (zero unless it is a frame), and the walk. The next window begins at its place.
#[derive(Clone, Copy)]
pub struct LiveStep {
    pub told: Told,
    pub table: [Stream; 64],
    pub walk: State,
}

// No place of a line is beyond 2^63.
pub const FAR: usize = 0x8000000000000000;

fn is_done(item: Item) -> bool
    ensures { result ≡ is_done item }
{
    matches!(item, Item::Done(_))
}

// The walk at another place.
fn placed(walk: State, place: usize) -> State
    ensures { result ≡ placed_at place walk }
{
    State {
        position: Position {
            place,
            ..walk.position
        },
        ..walk
    }
}

fn later_item(item: Item, by: usize) -> Item
    requires { by + place_of item < 18446744073709551616 }
    ensures { result ≡ later_item by item }
{
    match item {
        Item::Frame(p, h) => Item::Frame(by + p, h),
        Item::Lost(p, n) => Item::Lost(by + p, n),
        Item::Idle(p) => Item::Idle(by + p),
        Item::Done(p) => Item::Done(by + p),
    }
}

// What was found in the window, by its places in the line.
fn telling(found: Step, by: usize) -> LiveStep
    requires { Telling found by }
    ensures { result ≡ telling_at by found }
{
    let table = found.table;
    LiveStep {
        told: Told::Got(later_item(found.item, by)),
        table,
        walk: placed(found.walk, by + found.walk.position.place),
    }
}

// More bytes are wanted, from so many behind the walk's place on.
fn waiting(walk: State, by: usize) -> LiveStep
    requires { by + walk.position.place < 18446744073709551616 }
    ensures { result ≡ waiting_at by walk }
{
    let place = by + walk.position.place;
    LiveStep {
        told: Told::More(place),
        table: reading::no_streams(),
        walk: placed(walk, place),
    }
}

// The line is at its last place.
fn over(walk: State) -> LiveStep
    ensures { result ≡ over_at walk }
{
    let place = walk.position.place;
    LiveStep {
        told: Told::Got(Item::Done(place)),
        table: reading::no_streams(),
        walk,
    }
}

// Whether a walk that is done over what is there would go on with more bytes: not if the line has ended, nor if the walk has ended by itself.
pub fn goes_on(walk: State, more: bool) -> bool
    ensures { result ≡ wants more walk.limit walk.position.misses walk.position.lock }
{
    more && walk::limit_refusal(walk.limit).is_ok()
        && (!walk.position.lock || walk.position.misses < walk.limit)
}

// The first place from one on that stands, or the first from which no period is there.
fn first_standing(window: &[u8], from: usize) -> usize
    ensures { result ≡ standing window.now from }
{
    let mut p = periods::next_mark(window, from);
    while periods::whole(window, p) {
        if periods::judge_at(window, p).is_ok() {
            return p;
        }
        p = periods::next_mark(window, p + 1);
    }
    p
}

// Hunting, while more may come: no place is confirmed before two periods from it are there, and none that does not stand. Where all from the first that stands on have been looked at, the hunt goes on at the first that stands of those whose two periods are not there yet.
fn hunting(walk: State, window: &[u8]) -> LiveStep
    requires { Hunts walk window.now }
    ensures { result ≡ live_at window.now true walk }
{
    let n = window.len();
    let place = walk.position.place;
    if n < 12288 {
        return waiting(walk, 0);
    }
    let first = first_standing(window, 0);
    if first > n - 12288 {
        return waiting(walk, first);
    }
    let found = placed(walk, first).step(window);
    if is_done(found.item) {
        return waiting(walk, first_standing(window, n - 12287));
    }
    telling(found, place)
}

// In lock, while more may come: a period gives an item.
fn in_lock(walk: State, window: &[u8]) -> LiveStep
    requires { Locks walk window.now }
    ensures { result ≡ live_at window.now true walk }
{
    let place = walk.position.place;
    if window.len() < 6144 {
        return waiting(walk, 0);
    }
    telling(placed(walk, 0).step(window), place)
}

// The next item of the line. The window holds its bytes from the walk's place on, as many as are there; `more` says that others may follow.
pub fn step(walk: State, window: &[u8], more: bool) -> LiveStep
    ensures { result ≡ live_at window.now more walk }
{
    let place = walk.position.place;
    let n = window.len();
    if n >= FAR || place >= FAR - n {
        return over(walk);
    }
    if !goes_on(walk, more) {
        return telling(placed(walk, 0).step(window), place);
    }
    if walk.position.lock {
        in_lock(walk, window)
    } else {
        hunting(walk, window)
    }
}
