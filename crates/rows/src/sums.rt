// Check values of the sum.
use crate::expected::SUMS;
use std::io;
use workbench::line;

// Bytes with no order in their bits: 7, 38, 69, ..
fn pattern() -> [u8; 300] {
    let mut bytes = [0; 300];
    for (i, b) in bytes.iter_mut().enumerate() {
        *b = ((i * 31 + 7) % 256) as u8;
    }
    bytes
}

fn prefixes(rt: &impl Print) -> io::Result<()> {
    let bytes = pattern();
    for (n, expected) in SUMS.iter().enumerate() {
        line::sum(
            rt,
            format_args!("sum of the pattern's first {n}"),
            sum::sum(&bytes[..n]),
            *expected,
        )?;
    }
    Ok(())
}

pub fn rows(rt: &impl Print) -> io::Result<()> {
    line::sum(rt, "sum of 123456789", sum::sum(b"123456789"), 0xd64e)?;
    line::sum(
        rt,
        "residue of 123456789",
        !sum::sum(b"123456789\xd6\x4e"),
        0x1d0f,
    )?;
    prefixes(rt)
}
