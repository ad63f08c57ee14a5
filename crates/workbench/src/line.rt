// A row: what was tried, the result, what it should be, and whether it is.
use std::fmt::Display;
use std::io;

fn verdict(right: bool) -> &'static str {
    if right { "ok" } else { "WRONG" }
}

// Words, and a number, as they are: what stands in a row beside its numbers.
pub fn text(rt: &impl Print, words: &[u8]) -> io::Result<()> {
    rt.write_all(words)
}

pub fn number(rt: &impl Print, n: usize) -> io::Result<()> {
    print!(rt; "{n}")
}

// A row on a sum.
pub fn sum(rt: &impl Print, tried: impl Display + Drop, res: u16, expected: u16) -> io::Result<()> {
    let verdict = verdict(res == expected);
    println!(rt; "{tried}: {res:04x} {expected:04x} {verdict}")
}

// A row on any other number.
pub fn plain<N: Display + PartialEq + Drop>(
    rt: &impl Print,
    tried: impl Display + Drop,
    res: N,
    expected: N,
) -> io::Result<()> {
    let verdict = verdict(res == expected);
    println!(rt; "{tried}: {res} {expected} {verdict}")
}
