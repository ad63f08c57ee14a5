// Published check values of the sum and bench figures of reading, run.
#![tactic(auto)]

mod expected;
mod frames;
mod sums;

use std::io;

fn main(rt: HostRuntime) -> io::Result<()> {
    sums::rows(&rt)?;
    frames::rows(&rt)
}
