// Which streams the profile's refusal is about: the first one or the first two, in table order.
#![tactic(auto)]

ghost use Rattle.std.specs.Prelude.{Bool, ◌≡◌, ℕ, ◌≤◌};
ghost use Rattle.places.specs.declared.Place.{Place};
ghost use Rattle.refusals.specs.Refusals.{refusal_number};
ghost use Rattle.collision.specs.Collisions.{place_at, seek_to, alone_to, pair_to, two_by, FindsStreams};

use places::Place;
use refusals::Refusal;

// Two streams of the table, or one twice.
#[derive(Clone, Copy)]
pub struct Two {
    pub first: u8,
    pub second: u8,
}

// What the profile refuses, and the streams that it is about; 0 and 0, as `two_by` has it, where it is about the whole frame.
#[derive(Clone, Copy)]
pub struct Collision {
    pub refusal: Refusal,
    pub two: Two,
}

// The first stream of those from `from` up to n that passes the test; n, and no Option, where none does: `seek_to` and what is stated by it say n.
fn first_from<F: Fn(Place) -> bool>(frame: &[u8], from: u8, n: u8, test: F) -> u8
    requires callable { F.IsAlwaysCallable test }
    requires room { from ≤ n }
    ensures { (t : Place → Bool) → ((p : Place) (r : Bool) → F.post test p r → r ≡ t p) → result ≡ seek_to (λ (i : ℕ). t (place_at frame.now i)) from n }
{
    for i in from..n {
        if test(places::placed(frame, usize::from(i))) {
            return i;
        }
    }
    n
}

fn alone<F: Fn(Place) -> bool>(frame: &[u8], n: u8, test: F) -> Two
    requires { F.IsAlwaysCallable test }
    ensures { (t : Place → Bool) → ((p : Place) (r : Bool) → F.post test p r → r ≡ t p) → result ≡ alone_to t frame.now n }
{
    let i = first_from(frame, 0, n, test);
    Two {
        first: i,
        second: i,
    }
}

// The first stream that has one behind it with which it passes the test, and the first such one.
fn pair<F: Fn(Place, Place) -> bool>(frame: &[u8], n: u8, test: F) -> Two
    requires { F.IsAlwaysCallable test }
    ensures { (t : Place → Place → Bool) → ((p q : Place) (r : Bool) → F.post test p q r → r ≡ t p q) → result ≡ pair_to t frame.now n }
{
    for i in 0..n {
        let mine = places::placed(frame, usize::from(i));
        let j = first_from(frame, i + 1, n, |other| test(mine, other));
        if j < n {
            return Two {
                first: i,
                second: j,
            };
        }
    }
    Two {
        first: n,
        second: n,
    }
}

// The streams that a refusal is about, of the first n.
fn two_by(frame: &[u8], refusal: Refusal, n: u8) -> Two
    ensures { result ≡ two_by (refusal_number refusal) frame.now n }
{
    match refusal {
        Refusal::EqualScids => pair(frame, n, places::same),
        Refusal::NoSize => alone(frame, n, places::is_unsized),
        Refusal::Beyond => alone(frame, n, places::is_beyond),
        Refusal::Overlap => pair(frame, n, places::meet),
        _ => Two {
            first: 0,
            second: 0,
        },
    }
}

// The profile's outcome, a refusal with the streams that it is about.
pub fn find(frame: &[u8]) -> Result<(), Collision>
    ensures { FindsStreams frame.now result }
{
    let fc = fields::fc(frame);
    match profile::judge(frame) {
        Ok(()) => Ok(()),
        Err(refusal) => Err(Collision {
            refusal,
            two: two_by(frame, refusal, fc.nst),
        }),
    }
}
