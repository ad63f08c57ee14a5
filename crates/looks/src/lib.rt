// How many times the walk over a record puts the acceptance test to a place.
#![tactic(auto)]

ghost use Rattle.std.specs.Prelude.{true, ◌≡◌, ℕ, ◌+◌, ◌≤◌, ◌<◌, length};
ghost use Rattle.walk.specs.Walk.{look, hunting, locked};
ghost use Rattle.walk.specs.Records.{judged};
ghost use Rattle.looks.specs.Testing.{tests_of, CountsTests};
ghost use Rattle.looks.specs.CountClauses.{Counts};

use refusals::Refusal;
use walk::Position;

// Where the walk goes after one look or more, and how many tests these put.
#[derive(Clone, Copy)]
struct Tally {
    tests: usize,
    position: Position,
}

// Hunting from p: over the places that do not begin like a frame, which are counted and not judged, to one look.
fn look_hunting(bytes: &[u8], p: usize, misses: usize) -> Tally
    requires { p + 6144 ≤ length bytes.now }
    ensures { (limit : ℕ) → 0 < limit → Counts limit bytes.now (hunting p misses) result }
{
    let q = periods::next_mark(bytes, p);
    let more = q - p;
    if !periods::whole(bytes, q) {
        return Tally {
            tests: more,
            position: Position::hunting(q, misses),
        };
    }
    if periods::judge_at(bytes, q).is_err() || !periods::whole(bytes, q + 6144) {
        return Tally {
            tests: more + 1,
            position: Position::hunting(q + 1, misses),
        };
    }
    let position = if walk::confirms(bytes, q) {
        Position::locked(q + 6144, 0)
    } else {
        Position::hunting(q + 1, misses)
    };
    Tally {
        tests: more + 2,
        position,
    }
}

// Where one look in lock leads.
fn from_lock(bytes: &[u8], limit: usize, p: usize, misses: usize) -> Position
    requires { (p + 6144 ≤ length bytes.now) × (misses < limit) }
    ensures { result ≡ (look (judged limit bytes.now) (locked p misses)).goes }
{
    match periods::judge_at(bytes, p) {
        Ok(()) | Err(Refusal::Null) => Position::locked(p + 6144, 0),
        Err(_) if misses + 1 < limit => Position::locked(p + 6144, misses + 1),
        Err(_) => Position::hunting(p + 1, misses + 1),
    }
}

fn advance(bytes: &[u8], limit: usize, position: Position) -> Tally
    requires { (position.place + 6144 ≤ length bytes.now) × (0 < limit) × (position.lock ≡ true → position.misses < limit) }
    ensures { Counts limit bytes.now position result }
{
    if position.lock {
        Tally {
            tests: 1,
            position: from_lock(bytes, limit, position.place, position.misses),
        }
    } else {
        look_hunting(bytes, position.place, position.misses)
    }
}

// The count, with an allowed limit.
fn tests(bytes: &[u8], limit: usize) -> usize
    requires { 0 < limit }
    ensures { result ≡ tests_of limit bytes.now }
{
    let mut position = Position::hunting(0, 0);
    let mut seen = 0;
    while periods::whole(bytes, position.place) {
        let tally = advance(bytes, limit, position);
        seen += tally.tests;
        position = tally.position;
    }
    seen
}

// How many times the walk over a record, with a limit of misses, puts the acceptance test to a place; a limit outside 1 to 8 is refused.
pub fn count(bytes: &[u8], limit: usize) -> Result<usize, Refusal>
    ensures { CountsTests limit bytes.now result }
{
    walk::limit_refusal(limit)?;
    Ok(tests(bytes, limit))
}
