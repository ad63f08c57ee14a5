// Why a place of a record was not aired.
#![tactic(auto)]

ghost use Rattle.std.specs.Prelude.{◌≡◌, ◌+◌, ◌≤◌, length};
ghost use Rattle.walk.specs.Records.{judged};
ghost use Rattle.why.specs.Why.{Applies, Answers};
ghost use Rattle.why.specs.WhyClauses.{hunted_for, SaysAt, Says, Asked};

use refusals::Refusal;
use walk::{Item, State};

// How a place fared in the walk over its record: handed out, as a frame or an idle item; lost, or hunted over and refused, with the refusal; stood while hunting,
// and the place a period later does not stand, or stands with the same sync word; stepped over in lock, with the place of the item before it.
#[derive(Clone, Copy)]
pub enum Reason {
    HandedOut,
    Lost(Refusal),
    Refused(Refusal),
    NotStanding,
    SameSync,
    SteppedOver(usize),
}

// What a step of the walk says of a place: it was hunted over before the step's item, its reason, or nothing, since the walk is not past it.
#[derive(Clone, Copy)]
enum Found {
    Hunted,
    At(Reason),
    Later,
}

// The reason for a place that was hunted over.
fn hunted(bytes: &[u8], limit: usize, p: usize) -> Reason
    requires { p + 6144 ≤ length bytes.now }
    ensures { result ≡ hunted_for (judged limit bytes.now) p }
{
    if let Err(refusal) = periods::judge_at(bytes, p) {
        return Reason::Refused(refusal);
    }
    if periods::judge_at(bytes, p + 6144).is_ok() {
        Reason::SameSync
    } else {
        Reason::NotStanding
    }
}

// By an item at q, the reason for its own place, and the place to which the walk goes.
fn seek_by(q: usize, here: Reason, next: usize, place: usize) -> Found
    ensures { SaysAt q here next place result }
{
    if place < q {
        return Found::Hunted;
    }
    if place == q {
        return Found::At(here);
    }
    if place < next {
        return Found::At(Reason::SteppedOver(q));
    }
    Found::Later
}

fn seek(item: Item, next: usize, place: usize) -> Found
    ensures { Says item next place result }
{
    match item {
        Item::Frame(q, _) => seek_by(q, Reason::HandedOut, next, place),
        Item::Lost(q, n) => seek_by(q, Reason::Lost(n), next, place),
        Item::Idle(q) => seek_by(q, Reason::HandedOut, next, place),
        Item::Done(_) => Found::Hunted,
    }
}

// By one walk up to the place, from its beginning.
fn reason_at(bytes: &[u8], start: State, place: usize) -> Reason
    requires { Asked bytes.now start place }
    ensures { Applies bytes.now start.limit place result }
{
    let limit = start.limit;
    let mut walk = start;
    loop {
        let step = walk.step(bytes);
        let next = step.walk;
        let found = seek(step.item, next.position.place, place);
        match found {
            Found::Hunted => return hunted(bytes, limit, place),
            Found::At(reason) => return reason,
            Found::Later => walk = next,
        }
    }
}

// Why a place fared as it did in the walk with a limit: refused for a limit outside 1 to 8, then for a place outside 0 to length - 6,144.
pub fn why(bytes: &[u8], limit: usize, place: usize) -> Result<Reason, Refusal>
    ensures { Answers bytes.now limit place result }
{
    let start = walk::begin(limit)?;
    if !periods::whole(bytes, place) {
        return Err(Refusal::PlaceOutside);
    }
    Ok(reason_at(bytes, start, place))
}
