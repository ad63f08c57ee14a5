// The bench figures that are run, and a frame for each refusal and level.
use std::fmt::Display;
use std::io;
use workbench::build::{Given, PLAIN};
use workbench::line;

// A row on what the judge refuses.
fn judged(
    rt: &impl Print,
    given: impl Display + Drop,
    frame: &[u8],
    expected: u8,
) -> io::Result<()> {
    let refusal = refusals::outcome(judging::judge(frame));
    line::plain(rt, format_args!("refusal, {given}"), refusal, expected)
}

fn refusal(rt: &impl Print, given: &str, g: Given, expected: u8) -> io::Result<()> {
    judged(rt, given, &g.build(), expected)
}

fn level(rt: &impl Print, given: &str, sync: u32, right: u8, wrong: u8) -> io::Result<()> {
    let mut g = PLAIN;
    g.sync = sync;
    line::plain(
        rt,
        format_args!("level, status {given}, main-stream sum right"),
        g.header().level,
        right,
    )?;
    g.main_off = 1;
    line::plain(
        rt,
        format_args!("level, status {given}, main-stream sum wrong"),
        g.header().level,
        wrong,
    )
}

fn levels(rt: &impl Print) -> io::Result<()> {
    level(rt, "ff", 0xff073ab6, 0, 2)?;
    level(rt, "f0", 0xf0f8c549, 1, 2)?;
    level(rt, "0f", 0x0f073ab6, 2, 2)?;
    level(rt, "00", 0x00f8c549, 3, 3)
}

fn full(rt: &impl Print) -> io::Result<()> {
    let mut g = PLAIN;
    g.ficf = 0;
    g.nst = 3;
    g.stl = 255;
    g.last = 254;
    refusal(rt, "3 streams, FICF 0, STL total 764", g, 0)?;
    let fl = g.header().fl;
    line::plain(rt, "its FL", fl, 1532)?;
    line::plain(rt, "its carried bytes", 4 + (usize::from(fl) + 3) * 4, 6144)
}

fn limits(rt: &impl Print) -> io::Result<()> {
    let mut g = PLAIN;
    g.ficf = 0;
    g.nst = 2;
    g.stl = 383;
    g.last = 382;
    refusal(rt, "2 streams, FICF 0, STL total 765", g, 10)?;
    g.nst = 1;
    g.last = 684;
    refusal(rt, "STL 684", g, 0)?;
    g.last = 685;
    refusal(rt, "STL 685", g, 8)?;
    g.nst = 65;
    g.stl = 0;
    g.last = 0;
    g.header_off = 1;
    refusal(rt, "NST 65 and a bad header sum", g, 5)
}

// A null transmission's network frame: ones behind the sync word, whose last byte is given.
fn null_transmission(rt: &impl Print, given: &str, last: u8, expected: u8) -> io::Result<()> {
    let mut frame = [0xff; 6144];
    frame[1..4].copy_from_slice(&[0x07, 0x3a, last]);
    judged(rt, given, &frame, expected)
}

fn starts(rt: &impl Print) -> io::Result<()> {
    refusal(rt, "none", PLAIN, 0)?;
    let mut g = PLAIN;
    g.sync = 0xff073ab7;
    refusal(rt, "sync word neither of the two", g, 2)?;
    g.sync = 0x0e073ab7;
    refusal(rt, "sync word and status byte", g, 2)?;
    g.sync = 0x0e073ab6;
    refusal(rt, "status byte none of the four", g, 3)?;
    null_transmission(rt, "null transmission", 0xb6, 4)?;
    null_transmission(rt, "null transmission with a bad sync word", 0xb7, 2)
}

fn headers(rt: &impl Print) -> io::Result<()> {
    let mut g = PLAIN;
    g.header_off = 1;
    refusal(rt, "header sum wrong", g, 6)?;
    g.fct = 250;
    refusal(rt, "header sum wrong and FCT 250", g, 6)?;
    g.header_off = 0;
    refusal(rt, "FCT 250", g, 7)?;
    g.fct = 249;
    refusal(rt, "FCT 249", g, 0)?;
    g.longer = 1;
    refusal(rt, "FL differs from the formula", g, 9)
}

fn main_streams(rt: &impl Print) -> io::Result<()> {
    let mut g = PLAIN;
    g.main_off = 1;
    refusal(rt, "main-stream sum wrong", g, 0)?;
    g.nst = 64;
    refusal(
        rt,
        "NST 64, STL 24 each, so that the formula's 3161 does not fit FL",
        g,
        9,
    )?;
    g.stl = 0;
    refusal(rt, "NST 64, STL 0 but the last", g, 0)
}

fn lengths(rt: &impl Print) -> io::Result<()> {
    let bytes = [0; 65536];
    for n in [0, 1, 6143, 6145, 65536] {
        judged(rt, format_args!("bytes lent {n}"), &bytes[..n], 1)?;
    }
    Ok(())
}

pub fn rows(rt: &impl Print) -> io::Result<()> {
    full(rt)?;
    limits(rt)?;
    starts(rt)?;
    headers(rt)?;
    main_streams(rt)?;
    lengths(rt)?;
    levels(rt)
}
