// The walk as one thing: the record and the walk's state in it, held together.
// The work is in walk's `State::step`.
#![tactic(auto)]

ghost use Rattle.std.specs.Prelude.{◌≡◌};
ghost use Rattle.frame.specs.Answers.{PartAt};
ghost use Rattle.walk.specs.Records.{step_at, state_after};
ghost use Rattle.walker.specs.Advance.{period_part, held_part, start_of, FrameAt, Starts, advanced, Reaches, item_of};
ghost use Rattle.walker.specs.NthClauses.{ends_at};

use frame::Stream;
use refusals::Refusal;
use walk::{Item, Position, State, Step};

#[derive(Clone, Copy)]
pub struct Walk<'a> {
    pub record: &'a [u8],
    pub state: State,
}

// The walk begun; or why it is not, and a walk that holds no part of the record and is done at place 0.
// Not a Result of the walk: `Starts`, which `begin` promises, says what the walk beside a refusal is.
#[derive(Clone, Copy)]
pub struct Started<'a> {
    pub outcome: Result<(), Refusal>,
    pub walk: Walk<'a>,
}

// What the n-th step hands back; or why it does not, and done, at place 0.
// Not a Result of the step: `nth` promises its item for every limit (`item_of`), done at place 0 where the limit is refused.
#[derive(Clone, Copy)]
pub struct Reached {
    pub outcome: Result<(), Refusal>,
    pub step: Step,
}

// The item, its stream table and its part of the record (zero and empty unless it is a frame), and the advanced walk.
#[derive(Clone, Copy)]
pub struct Advanced<'a> {
    pub item: Item,
    pub table: [Stream; 64],
    pub frame: &'a [u8],
    pub walk: Walk<'a>,
}

// The period at p, or what there is of it; nothing, at the record's start, where p is beyond its end.
fn part_at(record: &[u8], p: usize) -> &[u8]
    ensures { PartAt «record».entry (period_part «record».now p) result }
{
    let n = record.len();
    if p > n {
        return &record[0..0];
    }
    if n - p < 6144 {
        return &record[p..n];
    }
    let e = p + 6144;
    &record[p..e]
}

// The item's frame; unless it is a frame, nothing, at the record's start.
pub fn frame_of(record: &[u8], item: Item) -> &[u8]
    ensures { FrameAt «record».entry item result }
{
    match item {
        Item::Frame(p, _) => part_at(record, p),
        _ => &record[0..0],
    }
}

// Hunting at place 0, and done there where the limit is refused.
fn start_of(limit: usize) -> State
    ensures { result ≡ start_of limit }
{
    match walk::begin(limit) {
        Ok(state) => state,
        Err(_) => State {
            limit: 0,
            position: Position::hunting(0, 0),
        },
    }
}

// The record; no part of it, at its start, where the limit is refused.
fn held_part(record: &[u8], limit: usize) -> &[u8]
    ensures { PartAt «record».entry (held_part limit «record».now) result }
{
    match walk::limit_refusal(limit) {
        Ok(()) => &record[0..record.len()],
        Err(_) => &record[0..0],
    }
}

// A walk over the record with a limit of misses; a limit outside 1 to 8 is refused.
pub fn begin<'a>(record: &'a [u8], limit: usize) -> Started<'a>
    ensures { Starts limit result × PartAt «record».entry (held_part limit «record».now) result.walk.«record» }
{
    let part = held_part(record, limit);
    Started {
        outcome: walk::limit_refusal(limit),
        walk: Walk {
            record: part,
            state: start_of(limit),
        },
    }
}

impl<'a> Walk<'a> {
    // To the next frame, lost mark or idle item of the record; done, at its place, where there is none.
    pub fn step(self) -> Advanced<'a>
        ensures { (result ≡ advanced self.entry result.frame) × FrameAt self.entry.«record» result.item result.frame }
    {
        let s = self.state.step(self.record);
        let frame = frame_of(self.record, s.item);
        let table = s.table;
        Advanced {
            item: s.item,
            table,
            frame,
            walk: Walk {
                record: self.record,
                state: s.walk,
            },
        }
    }
}

// No step is left, or done is said, which every later step would say again.
fn ends(left: usize, item: Item) -> bool
    ensures { result ≡ ends_at left item }
{
    match item {
        Item::Done(_) => true,
        _ => left == 0,
    }
}

// What the step after n steps from a state hands back. No step is taken after done, however large n is.
// Not a `for`: the contract of `ends` alone says that the walk does not go on after done, of which what comes back cannot tell.
fn nth_from(record: &[u8], state: State, n: usize) -> Step
    ensures { result ≡ step_at «record».now (state_after «record».now n state) }
{
    let mut w = Walk { record, state };
    let mut left = n;
    loop {
        let a = w.step();
        if ends(left, a.item) {
            return Step {
                item: a.item,
                table: a.table,
                walk: a.walk.state,
            };
        }
        w = a.walk;
        left = left - 1;
    }
}

// What the step after n steps hands back, from the beginning of the record: its item is the n-th of the record's walk. A limit outside 1 to 8 is refused.
pub fn nth(record: &[u8], limit: usize, n: usize) -> Reached
    ensures { Reaches limit «record».now n result × (result.step.item ≡ item_of limit «record».now n) }
{
    Reached {
        outcome: walk::limit_refusal(limit),
        step: nth_from(record, start_of(limit), n),
    }
}
