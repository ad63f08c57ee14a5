// The walk over a record, for C: the exports of the archive `walks`.
// The exports stand here once more, since no crate can be built on a static library, and others are built on `walks`.
#![tactic(auto)]

ghost use Rattle.controller.specs.Boundary.{Told};
ghost use Rattle.walks.specs.WalkCalls.{walk_of, begun_bytes, state_refusal_of, Limited};

// A step of the walk whose state is in the lent bytes: they then hold the advanced walk and its item. Any bytes are taken.
#[unsafe(no_mangle)]
pub extern "C" fn spindlewren_step(bytes: &[u8], walk: &mut [u8]) -> u8
    ensures { Told 23 (state_refusal_of walk.old) (walk_of bytes.now walk.old) walk.old walk.new result }
{
    walks::spindlewren_step(bytes, walk)
}

// A walk begun with a limit of misses: 27 for a limit outside 1 to 8, then 1 for walk's bytes of another length.
#[unsafe(no_mangle)]
pub extern "C" fn spindlewren_begin(limit: usize, walk: &mut [u8]) -> u8
    ensures { Limited limit 23 (begun_bytes limit) walk.old walk.new result }
{
    walks::spindlewren_begin(limit, walk)
}
