// The walk over a record, on numbers and byte slices, for C.
#![tactic(auto)]

ghost use Rattle.controller.specs.Boundary.{Told};
ghost use Rattle.walks.specs.WalkCalls.{walk_of, begun_bytes, state_refusal_of, Limited};

use refusals::Refusal;
use walk::{Position, State};

// A step of the walk whose state is in the lent bytes: they then hold the advanced walk and its item. Any bytes are taken.
#[unsafe(no_mangle)]
pub extern "C" fn spindlewren_step(bytes: &[u8], walk: &mut [u8]) -> u8
    ensures { Told 23 (state_refusal_of walk.old) (walk_of bytes.now walk.old) walk.old walk.new result }
{
    if walk.len() != 23 {
        return Refusal::Length.number();
    }
    if walk[9] > 1 {
        return Refusal::TooWide.number();
    }
    let step = block::state_in(walk).step(bytes);
    block::put_item(walk, step.walk, step.item);
    0
}

// A walk begun with a limit of misses: 27 for a limit outside 1 to 8, then 1 for walk's bytes of another length.
#[unsafe(no_mangle)]
pub extern "C" fn spindlewren_begin(limit: usize, walk: &mut [u8]) -> u8
    ensures { Limited limit 23 (begun_bytes limit) walk.old walk.new result }
{
    if let Err(refusal) = walk::limit_refusal(limit) {
        return refusal.number();
    }
    if walk.len() != 23 {
        return Refusal::Length.number();
    }
    let position = Position::hunting(0, 0);
    block::put_told(walk, State { limit, position }, 0, 0, 0, 0, 0);
    0
}
