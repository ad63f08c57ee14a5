// What reading hands out of a frame, run: a row for each field, sort of timestamp, entry and part.
#![tactic(auto)]

use frame::{Header, Stream, Timestamp};
use std::io;
use workbench::build::{Given, PLAIN};
use workbench::line;

fn sort(time: u32) -> u8 {
    let mut g = PLAIN;
    g.time = time;
    match g.header().timestamp {
        Timestamp::Absent => 0,
        Timestamp::Time(_) => 1,
        Timestamp::Reserved(_) => 2,
    }
}

fn numbers(rt: &impl Print, h: Header) -> io::Result<()> {
    line::plain(rt, "FSYNC1", u8::from(h.fsync1), 1)?;
    line::plain(rt, "FCT", h.fct, 17)?;
    line::plain(rt, "NST", h.nst, 1)?;
    line::plain(rt, "FP", h.fp, 5)?;
    line::plain(rt, "MID", h.mid, 1)
}

fn words(rt: &impl Print, h: Header) -> io::Result<()> {
    line::plain(rt, "FL", h.fl, 74)?;
    line::sum(rt, "MNSC", h.mnsc, 0x1234)?;
    line::sum(rt, "Rfu", h.rfu, 0xffff)?;
    line::plain(rt, "Rfa", h.rfa, 255)
}

fn fields(rt: &impl Print) -> io::Result<()> {
    let mut g = PLAIN;
    g.sync = 0xfff8c549;
    let h = g.header();
    numbers(rt, h)?;
    words(rt, h)
}

fn timestamps(rt: &impl Print) -> io::Result<()> {
    for (time, expected) in [(0xffffff, 0), (0xfffffe, 2), (0xfa0000, 2), (0xf9ffff, 1)] {
        line::plain(
            rt,
            format_args!("timestamp {time:06x}, sort"),
            sort(time),
            expected,
        )?;
    }
    Ok(())
}

fn entry(rt: &impl Print, s: Stream) -> io::Result<()> {
    line::plain(rt, "SCID", s.scid, 1)?;
    line::plain(rt, "SAD", s.sad, 54)?;
    line::plain(rt, "TPL", s.tpl, 34)?;
    line::plain(rt, "STL", s.stl, 24)
}

fn entries(rt: &impl Print) -> io::Result<()> {
    let table = reading::read(&PLAIN.build()).table;
    entry(rt, table[0])?;
    line::plain(rt, "STL beyond the count", table[1].stl, 0)
}

// The FIC and the first stream of a frame: places and lengths.
fn parts(rt: &impl Print, given: &str, g: Given, fic_len: usize, start: usize) -> io::Result<()> {
    let frame = g.build();
    line::plain(
        rt,
        format_args!("{given}, FIC bytes"),
        parts::fic(&frame).len(),
        fic_len,
    )?;
    line::plain(
        rt,
        format_args!("{given}, stream 0 begins at"),
        spans::stream_place(&frame, 0).start,
        start,
    )?;
    line::plain(
        rt,
        format_args!("{given}, stream 0 bytes"),
        parts::stream(&frame, 0).len(),
        192,
    )
}

fn index(rt: &impl Print, i: usize, expected: u8, len: usize) -> io::Result<()> {
    let frame = PLAIN.build();
    let refusal = refusals::outcome(spans::stream_refusal(&frame, i));
    line::plain(
        rt,
        format_args!("refusal, stream index {i}"),
        refusal,
        expected,
    )?;
    line::plain(rt, "bytes of its part", parts::stream(&frame, i).len(), len)
}

fn all_parts(rt: &impl Print) -> io::Result<()> {
    let mut g = PLAIN;
    parts(rt, "MID 1", g, 96, 112)?;
    g.mid = 3;
    parts(rt, "MID 3", g, 128, 144)?;
    g.ficf = 0;
    parts(rt, "FICF 0", g, 0, 16)
}

fn main(rt: HostRuntime) -> io::Result<()> {
    fields(&rt)?;
    timestamps(&rt)?;
    entries(&rt)?;
    all_parts(&rt)?;
    index(&rt, 0, 0, 192)?;
    index(&rt, 1, 13, 0)?;
    index(&rt, usize::MAX, 13, 0)
}
