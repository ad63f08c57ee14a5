// The listing: a line for each item of the walk over the record on standard input.
#![tactic(auto)]

ghost use Rattle.std.specs.Prelude.{◌≤◌, length};

use std::fmt;
use std::io::{self, Read};
use walk::{Item, State};

// An item's line: PLACE KIND CODE LEVEL.
#[derive(Drop)]
struct Line(Item);

impl fmt::Display for Line {
    fn fmt<W: fmt::Write>(&self, f: &mut fmt::Formatter<W>) -> fmt::Result {
        match self.0 {
            Item::Frame(place, h) => {
                let fct = h.fct;
                let level = h.level;
                write!(f, "{place} frame {fct} {level}")
            }
            Item::Lost(place, refusal) => {
                let number = refusal.number();
                write!(f, "{place} lost {number} -")
            }
            Item::Idle(place) => write!(f, "{place} idle 4 -"),
            Item::Done(place) => write!(f, "end {place}"),
        }
    }
}

// A record of n bytes has at most n items before it is done.
fn list(rt: &impl Print, record: &[u8], start: State) -> io::Result<()> {
    println!(rt; "place kind code level")?;
    let mut walk = start;
    for _ in 0..65536 {
        let step = walk.step(record);
        walk = step.walk;
        println!(rt; "{}", Line(step.item))?;
        if let Item::Done(_) = step.item {
            break;
        }
    }
    Ok(())
}

// Reads until buf is full, the input ends or a read fails, and returns how many bytes it put at the start of buf.
fn read_full(from: &mut impl Read, buf: &mut [u8]) -> usize
    ensures { result ≤ length buf.new }
{
    let mut done: usize = 0;
    while done < buf.len() {
        match from.read(&mut buf[done..]) {
            Ok(0) => break,
            Ok(n) => done += n,
            Err(_) => break,
        }
    }
    done
}

fn main(rt: HostRuntime) -> io::Result<()> {
    let mut input = rt.stdin();
    let mut bytes = [0u8; 65536];
    let n = read_full(&mut input, &mut bytes);
    if n > 61440 {
        return println!(&rt; "too long");
    }
    // read_full takes an error for the end; asked once more, only the end answers 0
    let mut more = [0u8; 4096];
    match input.read(&mut more) {
        Ok(0) => {}
        _ => return println!(&rt; "cannot read"),
    }
    match walk::begin(3) {
        Ok(start) => list(&rt, &bytes[..n], start),
        Err(_) => println!(&rt; "limit refused"),
    }
}
