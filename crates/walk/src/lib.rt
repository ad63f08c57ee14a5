// Walking a record: the state, and a step from one item to the next.
#![tactic(auto)]

ghost use Rattle.std.specs.Prelude.{◌≡◌, List, ℕ, ◌+◌, ◌≤◌, length};
ghost use Rattle.refusals.specs.Refusals.{outcome_number};
ghost use Rattle.frame.specs.Rules.{refusal_of};
ghost use Rattle.frame.specs.Answers.{Reads};
ghost use Rattle.walk.specs.Walk.{Done, confirmed, locked, hunting};
ghost use Rattle.walk.specs.Records.{part, judged, frame_in, limit_refusal_of, Begins, step_at};
ghost use Rattle.walk.specs.StepClauses.{Missed, bare, moved_with, moved_at};

use frame::{Header, Reading, Stream};
use refusals::Refusal;

// Where the walk is. Hunting never looks at the misses.
#[derive(Clone, Copy)]
pub struct Position {
    pub place: usize,
    pub misses: usize,
    pub lock: bool,
}

// A walk: its limit of misses, which no step changes, and its position.
#[derive(Clone, Copy)]
pub struct State {
    pub limit: usize,
    pub position: Position,
}

// What a step hands out: a frame's place and header, a lost mark's place and refusal, the place of a null transmission in lock, or done, with the place.
#[derive(Clone, Copy)]
pub enum Item {
    Frame(usize, Header),
    Lost(usize, Refusal),
    Idle(usize),
    Done(usize),
}

// The item, the stream table beside it (zero unless the item is a frame), and the advanced walk.
#[derive(Clone, Copy)]
pub struct Step {
    pub item: Item,
    pub table: [Stream; 64],
    pub walk: State,
}

// A step but for the limit, which none of the functions below can change.
#[derive(Clone, Copy)]
struct Moved {
    item: Item,
    table: [Stream; 64],
    position: Position,
}

// What reading gives of the period at p.
fn read_at(bytes: &[u8], p: usize) -> Reading
    requires { p + 6144 ≤ length bytes.now }
    ensures { Reads (part bytes.now p) result }
{
    let e = p + 6144;
    reading::read(&bytes[p..e])
}

// Whether the place a period after p, which stands, stands with the other sync word.
fn followed(bytes: &[u8], p: usize) -> bool
    requires { (p + 6144 ≤ length bytes.now) × (refusal_of (part bytes.now p) ≡ 0) }
    ensures { (limit : ℕ) → result ≡ confirmed (judged limit bytes.now) p }
{
    let q = p + 6144;
    periods::judge_at(bytes, q).is_ok()
        && periods::fsync1_at(bytes, p) != periods::fsync1_at(bytes, q)
}

// Whether p stands and is followed.
pub fn confirms(bytes: &[u8], p: usize) -> bool
    ensures { (limit : ℕ) → result ≡ confirmed (judged limit bytes.now) p }
{
    periods::judge_at(bytes, p).is_ok() && followed(bytes, p)
}

// The frame that stands at p, and the walk in lock a period later.
fn frame_step(bytes: &[u8], p: usize) -> Moved
    requires { (p + 6144 ≤ length bytes.now) × (refusal_of (part bytes.now p) ≡ 0) }
    ensures { result ≡ moved_with bytes.now (frame_in bytes.now p) (locked (p + 6144) 0) }
{
    let position = Position::locked(p + 6144, 0);
    let reading = read_at(bytes, p);
    let table = reading.table;
    match reading.answer {
        Ok(h) => Moved {
            item: Item::Frame(p, h),
            table,
            position,
        },
        Err(refusal) => Moved {
            item: Item::Lost(p, refusal),
            table,
            position,
        },
    }
}

// An item that is no frame, and where the walk goes on.
fn no_frame(item: Item, position: Position) -> Moved
    ensures { result ≡ bare item position }
{
    Moved {
        item,
        table: reading::no_streams(),
        position,
    }
}

fn done(position: Position) -> Moved
    ensures { (bytes : List ℕ) → result ≡ moved_with bytes (Done position.place) position }
{
    no_frame(Item::Done(position.place), position)
}

// Hunting from a place on: to the first place that is confirmed, or to the end.
fn hunt(bytes: &[u8], from: usize, misses: usize) -> Moved
    ensures { (limit : ℕ) → result ≡ moved_at limit bytes.now (hunting from misses) }
{
    let mut p = periods::next_mark(bytes, from);
    while periods::whole(bytes, p) {
        if confirms(bytes, p) {
            return frame_step(bytes, p);
        }
        p = periods::next_mark(bytes, p + 1);
    }
    done(Position::hunting(p, misses))
}

// A lost mark at p; once the misses are as many as the limit, the hunt begins at the next byte.
fn missed(bytes: &[u8], limit: usize, p: usize, misses: usize, refusal: Refusal) -> Moved
    requires { Missed limit bytes.now p misses refusal }
    ensures { result ≡ moved_at limit bytes.now (locked p misses) }
{
    let lost = Item::Lost(p, refusal);
    if misses + 1 < limit {
        return no_frame(lost, Position::locked(p + 6144, misses + 1));
    }
    no_frame(lost, Position::hunting(p + 1, misses + 1))
}

fn in_lock(bytes: &[u8], limit: usize, p: usize, misses: usize) -> Moved
    ensures { result ≡ moved_at limit bytes.now (locked p misses) }
{
    if misses >= limit || !periods::whole(bytes, p) {
        return done(Position::locked(p, misses));
    }
    match periods::judge_at(bytes, p) {
        Ok(()) => frame_step(bytes, p),
        Err(Refusal::Null) => no_frame(Item::Idle(p), Position::locked(p + 6144, 0)),
        Err(refusal) => missed(bytes, limit, p, misses, refusal),
    }
}

impl Position {
    // Every position is made by one of these two.
    pub fn locked(place: usize, misses: usize) -> Position
        ensures { result ≡ locked place misses }
    {
        Position {
            place,
            misses,
            lock: true,
        }
    }

    pub fn hunting(place: usize, misses: usize) -> Position
        ensures { result ≡ hunting place misses }
    {
        Position {
            place,
            misses,
            lock: false,
        }
    }

    // A step with an allowed limit.
    fn within(self, bytes: &[u8], limit: usize) -> Moved
        ensures { result ≡ moved_at limit bytes.now self }
    {
        if self.lock {
            in_lock(bytes, limit, self.place, self.misses)
        } else {
            hunt(bytes, self.place, self.misses)
        }
    }
}

// A limit outside 1 to 8 is refused.
pub fn limit_refusal(limit: usize) -> Result<(), Refusal>
    ensures { outcome_number result ≡ limit_refusal_of limit }
{
    if (1..=8).contains(&limit) {
        Ok(())
    } else {
        Err(Refusal::LimitOutside)
    }
}

// The walk at its beginning, hunting at place 0.
pub fn begin(limit: usize) -> Result<State, Refusal>
    ensures { Begins limit result }
{
    limit_refusal(limit)?;
    Ok(State {
        limit,
        position: Position::hunting(0, 0),
    })
}

impl State {
    // To the next frame, lost mark or idle item of the record; done, at its place, where there is none. Any state is taken: one whose limit is outside 1 to 8 is done where it is.
    pub fn step(self, bytes: &[u8]) -> Step
        ensures { result ≡ step_at bytes.now self }
    {
        let limit = self.limit;
        if limit_refusal(limit).is_err() {
            return Step {
                item: Item::Done(self.position.place),
                table: reading::no_streams(),
                walk: self,
            };
        }
        let moved = self.position.within(bytes, limit);
        let table = moved.table;
        Step {
            item: moved.item,
            table,
            walk: State {
                limit,
                position: moved.position,
            },
        }
    }
}
