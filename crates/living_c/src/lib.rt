// The walk over a live line, for C: the export of the archive `living`.
// The exports stand here once more, since no crate can be built on a static library, and others are built on `living`.
#![tactic(auto)]

ghost use Rattle.controller.specs.Boundary;
ghost use Rattle.living.specs.LiveBytes.{live_refusal_of, live_of};

// A step of the walk whose state is in the lent bytes over the line's bytes from its place on, as many as are there; `more` is 0 once the line has ended, and 1 before. 1 for walk's
// bytes of another length, then 12 for a lock or a `more` above 1; refused, not one byte is written.
#[unsafe(no_mangle)]
pub extern "C" fn spindlewren_live(window: &[u8], more: u8, walk: &mut [u8]) -> u8
    ensures { Boundary.Told 23 (live_refusal_of more walk.old) (live_of window.now more walk.old) walk.old walk.new result }
{
    living::spindlewren_live(window, more, walk)
}
