// Bench figures of writing, run: a row for each refusal, for two at once, and for what is written.
#![tactic(auto)]

use frame::{Fields, Stream, Timestamp};
use std::io;
use workbench::build::put_main;
use workbench::line;

fn entry(scid: u8, sad: u16, tpl: u8, stl: u16) -> Stream {
    Stream {
        scid,
        sad,
        tpl,
        stl,
    }
}

// Level 0, FSYNC0, FCT 17, the FIC of mode I, one stream of STL 24: 288 bytes of main stream.
fn fields(timestamp: Timestamp) -> Fields {
    let mut table = [entry(0, 0, 0, 0); 64];
    table[0] = entry(1, 54, 34, 24);
    Fields {
        level: 0,
        fsync1: false,
        fct: 17,
        ficf: true,
        fp: 5,
        mid: 1,
        mnsc: 0x1234,
        rfu: 0xffff,
        rfa: 0xff,
        timestamp,
        count: 1,
        table,
    }
}

fn plain() -> Fields {
    fields(Timestamp::Absent)
}

// The same but for these; plain() is with(0, 17, 5, 1, 1).
fn with(level: u8, fct: u8, fp: u8, mid: u8, count: usize) -> Fields {
    let mut x = plain();
    x.level = level;
    x.fct = fct;
    x.fp = fp;
    x.mid = mid;
    x.count = count;
    x
}

// FICF 0 and n streams, the first three of these STLs.
fn streams(n: usize, first: u16, second: u16, third: u16) -> Fields {
    let mut x = plain();
    x.ficf = false;
    x.count = n;
    x.table[0] = entry(1, 54, 34, first);
    x.table[1] = entry(2, 54, 34, second);
    x.table[2] = entry(3, 54, 34, third);
    x
}

// The number of writing's outcome with a main stream of n bytes, 255 for more than a frame's: byte i is i mod 251.
fn write(x: Fields, n: usize, out: &mut [u8]) -> u8 {
    let mut main = [0; 6144];
    put_main(&mut main, 0, 6144);
    match main.get(..n) {
        Some(main) => refusals::outcome(writing::write(x, main, out)),
        None => 255,
    }
}

fn row(rt: &impl Print, given: &str, number: u8, expected: u8) -> io::Result<()> {
    line::plain(rt, format_args!("writing, {given}"), number, expected)
}

fn refusal(rt: &impl Print, given: &str, x: Fields, n: usize, expected: u8) -> io::Result<()> {
    let mut out = [0; 6144];
    row(rt, given, write(x, n, &mut out), expected)
}

// Refusal 1, for an output of another length than a frame's.
fn lent(rt: &impl Print, given: &str, x: Fields, out: &mut [u8]) -> io::Result<()> {
    row(rt, given, write(x, 288, out), 1)
}

fn wide(rt: &impl Print, given: &str, s: Stream) -> io::Result<()> {
    let mut x = plain();
    x.table[0] = s;
    refusal(rt, given, x, 288, 12)
}

fn lengths(rt: &impl Print) -> io::Result<()> {
    lent(rt, "6143 bytes of output", plain(), &mut [0; 6143])?;
    lent(rt, "6145 bytes of output", plain(), &mut [0; 6145])
}

fn wide_headers(rt: &impl Print) -> io::Result<()> {
    refusal(rt, "level 4", with(4, 17, 5, 1, 1), 288, 12)?;
    refusal(rt, "FP 8", with(0, 17, 8, 1, 1), 288, 12)?;
    refusal(rt, "MID 4", with(0, 17, 5, 4, 1), 288, 12)
}

fn wide_entries(rt: &impl Print) -> io::Result<()> {
    wide(rt, "SCID 64", entry(64, 54, 34, 24))?;
    wide(rt, "SAD 1024", entry(1, 1024, 34, 24))?;
    wide(rt, "TPL 64", entry(1, 54, 64, 24))?;
    wide(rt, "STL 1024", entry(1, 54, 34, 1024))
}

fn wide_time(rt: &impl Print) -> io::Result<()> {
    let mut x = fields(Timestamp::Time(0xffffff));
    refusal(rt, "the time ffffff", x, 288, 12)?;
    x = fields(Timestamp::Time(0xfa0000));
    refusal(rt, "the time fa0000", x, 288, 12)?;
    x = fields(Timestamp::Reserved(0xf9ffff));
    refusal(rt, "the reserved number f9ffff", x, 288, 12)?;
    x = fields(Timestamp::Reserved(0xffffff));
    refusal(rt, "the reserved number ffffff", x, 288, 12)
}

fn alone(rt: &impl Print) -> io::Result<()> {
    refusal(rt, "count 65", with(0, 17, 5, 1, 65), 288, 5)?;
    refusal(rt, "FCT 250", with(0, 250, 5, 1, 1), 288, 7)?;
    let mut x = streams(1, 685, 0, 0);
    refusal(rt, "STL 685", x, 5480, 8)?;
    x = streams(2, 383, 382, 0);
    refusal(rt, "2 streams, FICF 0, STL total 765", x, 6120, 10)
}

fn main_lengths(rt: &impl Print) -> io::Result<()> {
    refusal(rt, "main stream one byte short", plain(), 287, 11)?;
    refusal(rt, "main stream one byte long", plain(), 289, 11)
}

fn pairs(rt: &impl Print) -> io::Result<()> {
    lent(
        rt,
        "6143 bytes of output and level 4",
        with(4, 17, 5, 1, 1),
        &mut [0; 6143],
    )?;
    let mut x = with(0, 17, 5, 1, 65);
    x.table[63] = entry(1, 1024, 34, 24);
    refusal(rt, "count 65 and entry 63 with SAD 1024", x, 288, 12)?;
    x.table[63] = entry(1, 1023, 34, 24);
    refusal(rt, "count 65 and entry 63 with SAD 1023", x, 288, 5)?;
    x.fct = 250;
    refusal(rt, "count 65 and FCT 250", x, 288, 5)
}

fn pairs_of_streams(rt: &impl Print) -> io::Result<()> {
    let mut x = streams(1, 685, 0, 0);
    x.fct = 250;
    refusal(rt, "FCT 250 and STL 685", x, 5480, 7)?;
    refusal(
        rt,
        "STL 685 and 80, so that FL is 1533",
        streams(2, 685, 80, 0),
        6120,
        8,
    )?;
    refusal(
        rt,
        "FL 1533 and main stream one byte short",
        streams(2, 383, 382, 0),
        6119,
        10,
    )
}

// A frame that is written, and accepted by reading.
fn accepted(rt: &impl Print, given: &str, x: Fields, n: usize) -> io::Result<()> {
    let mut out = [0; 6144];
    row(rt, given, write(x, n, &mut out), 0)?;
    line::plain(rt, "reading it", refusals::outcome(judging::judge(&out)), 0)
}

fn written(rt: &impl Print) -> io::Result<()> {
    let mut x = plain();
    x.table[1] = entry(255, 54, 34, 1023);
    accepted(rt, "count 1 and entry 1 with SCID 255 and STL 1023", x, 288)?;
    accepted(
        rt,
        "3 streams, FICF 0, STL total 764",
        streams(3, 255, 255, 254),
        6112,
    )?;
    accepted(rt, "no stream, FICF 0", streams(0, 0, 0, 0), 0)
}

// A refused writing leaves the output as it was: byte i is i mod 251.
fn kept(rt: &impl Print, given: &str, x: Fields, n: usize) -> io::Result<()> {
    let mut out = [0; 6144];
    put_main(&mut out, 0, 6144);
    line::sum(
        rt,
        format_args!("sum of the output before writing refused for {given}"),
        ring::sum(&out),
        0x4bd7,
    )?;
    write(x, n, &mut out);
    line::sum(rt, "sum of it after", ring::sum(&out), 0x4bd7)
}

fn refused(rt: &impl Print) -> io::Result<()> {
    kept(rt, "level 4", with(4, 17, 5, 1, 1), 288)?;
    kept(rt, "FL 1533", streams(2, 383, 382, 0), 6120)?;
    kept(rt, "main stream one byte short", plain(), 287)
}

// The whole frame's sum takes in the two sums inside, so it is the same for every header and main stream of these lengths:
// the first row stops before the header sum, the second before the main-stream sum.
fn frame(
    rt: &impl Print,
    given: &str,
    x: Fields,
    n: usize,
    sums: [(usize, u16); 3],
) -> io::Result<()> {
    let mut out = [0; 6144];
    row(rt, given, write(x, n, &mut out), 0)?;
    for (end, expected) in sums {
        line::sum(
            rt,
            format_args!("sum of the written frame's first {end}"),
            ring::sum_between(&out, 0, end),
            expected,
        )?;
    }
    Ok(())
}

fn full() -> Fields {
    let mut x = fields(Timestamp::Time(0x123456));
    x.level = 2;
    x.fsync1 = true;
    x.fct = 249;
    x.fp = 2;
    x.mid = 3;
    x.mnsc = 0xabcd;
    x.rfu = 0x0123;
    x.rfa = 0x45;
    x.count = 2;
    x.table[0] = entry(42, 341, 21, 48);
    x.table[1] = entry(63, 1023, 63, 3);
    x
}

fn frames(rt: &impl Print) -> io::Result<()> {
    frame(
        rt,
        "one stream",
        plain(),
        288,
        [(14, 0x9c44), (304, 0x5287), (6144, 0x02d0)],
    )?;
    frame(
        rt,
        "two streams and a time",
        full(),
        536,
        [(18, 0x43ac), (556, 0xdb70), (6144, 0x06ed)],
    )
}

fn main(rt: HostRuntime) -> io::Result<()> {
    lengths(&rt)?;
    wide_headers(&rt)?;
    wide_entries(&rt)?;
    wide_time(&rt)?;
    alone(&rt)?;
    main_lengths(&rt)?;
    pairs(&rt)?;
    pairs_of_streams(&rt)?;
    written(&rt)?;
    refused(&rt)?;
    frames(&rt)
}
