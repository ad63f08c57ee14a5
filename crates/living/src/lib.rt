// The walk over a live line, on byte slices, for C.
#![tactic(auto)]

ghost use Rattle.std.specs.Prelude.{true, List, ◌≡◌, ℕ, length};
ghost use Rattle.octets.specs.Stores.{put};
ghost use Rattle.controller.specs.Boundary;
ghost use Rattle.live.specs.Live.{live_at, waiting_at};
ghost use Rattle.living.specs.LiveBytes.{live_bytes, live_refusal_of, live_of};

use live::{FAR, Told};
use refusals::Refusal;
use walk::State;

// Whether more bytes are wanted with no place looked at: the walk goes on with them, and of the n that are there in lock a period is not whole, hunting two are not. It may
// err to one side, and is here for time alone: most calls over short pieces end with it.
fn waits(state: State, n: usize, more: bool) -> bool
    ensures { result ≡ true → (w : List ℕ) → length w ≡ n → live_at w more state ≡ waiting_at 0 state }
{
    n < 12288
        && state.position.place < FAR - n
        && live::goes_on(state, more)
        && (!state.position.lock || n < 6144)
}

// The advanced walk in eleven bytes, and what is told in twelve.
fn put_live(out: &mut [u8], walk: State, told: Told)
    ensures { out.new ≡ put out.old 0 (live_bytes told walk) }
{
    match told {
        Told::Got(item) => block::put_item(out, walk, item),
        Told::More(q) => block::put_told(out, walk, 4, 0, q, 0, 0),
    }
}

// A step of the walk whose state is in the lent bytes over the line's bytes from its place on, as many as are there; `more` is 0 once the line has ended, and 1 before. 1 for walk's
// bytes of another length, then 12 for a lock or a `more` above 1; refused, not one byte is written.
#[unsafe(no_mangle)]
pub extern "C" fn spindlewren_live(window: &[u8], more: u8, walk: &mut [u8]) -> u8
    ensures { Boundary.Told 23 (live_refusal_of more walk.old) (live_of window.now more walk.old) walk.old walk.new result }
{
    if walk.len() != 23 {
        return Refusal::Length.number();
    }
    if walk[9] > 1 {
        return Refusal::TooWide.number();
    }
    if more > 1 {
        return Refusal::TooWide.number();
    }
    let state = block::state_in(walk);
    if waits(state, window.len(), more == 1) {
        put_live(walk, state, Told::More(state.position.place));
        return 0;
    }
    let step = live::step(state, window, more == 1);
    put_live(walk, step.walk, step.told);
    0
}
