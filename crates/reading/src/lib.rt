// Reading one network frame: its fields and stream table, or why it is refused.
#![tactic(auto)]

ghost use Rattle.std.specs.Prelude.{[], ◌≡◌, ◌≤◌, eqb};
ghost use Rattle.sum.specs.Sum.{sum_of};
ghost use Rattle.frame.specs.Frame.{streams_to, level_by, main_of};
ghost use Rattle.frame.specs.Answers.{table_by, Reads, header_for, timestamp_for};

use frame::{Header, Reading, Stream, Timestamp};

// The level handed on.
#[tactic(auto, using(octets::proofs::Deciding::tests), unfolding(frame::specs::Frame::level_by))]
fn handed(level: u8, sum: u16, sent: u16) -> u8
    ensures { result ≡ level_by level (eqb sum sent) }
{
    if sum == sent { level } else { level.max(2) }
}

fn main_sum(frame: &[u8]) -> u16
    ensures { result ≡ sum_of (main_of frame.now) }
{
    let fc = fields::fc(frame);
    ring::sum_between(
        frame,
        4 + (fc.nst as usize + 2) * 4,
        4 + (fc.fl as usize + 1) * 4,
    )
}

#[tactic(auto, using(octets::proofs::Deciding::tests), unfolding(frame::specs::Answers::timestamp_for))]
pub fn timestamp(n: u32) -> Timestamp
    ensures { result ≡ timestamp_for n }
{
    match n {
        0xFFFFFF => Timestamp::Absent,
        0..=0xF9FFFF => Timestamp::Time(n),
        _ => Timestamp::Reserved(n),
    }
}

fn header(frame: &[u8]) -> Header
    ensures { result ≡ header_for frame.now }
{
    let sync = fields::sync(frame);
    let fc = fields::fc(frame);
    let eoh = fields::eoh(frame);
    let eof = fields::eof(frame);
    let tist = fields::tist(frame);
    let timestamp = timestamp(tist.time);
    let worked = main_sum(frame);
    Header {
        level: handed(meaning::level(sync.err), worked, eof.sum),
        fsync1: meaning::is_fsync1(sync.fsync),
        fct: fc.fct,
        ficf: fc.ficf == 1,
        nst: fc.nst,
        fp: fc.fp,
        mid: fc.mid,
        fl: fc.fl,
        mnsc: eoh.mnsc,
        rfu: eof.rfu,
        rfa: tist.rfa,
        timestamp,
        sent: eof.sum,
        worked,
    }
}

// The table of no entries.
pub fn no_streams() -> [Stream; 64]
    ensures { result ≡ table_by [] }
{
    [Stream {
        scid: 0,
        sad: 0,
        tpl: 0,
        stl: 0,
    }; 64]
}

// The table of the first n entries.
fn table(frame: &[u8], n: usize) -> [Stream; 64]
    requires { n ≤ 64 }
    ensures { result ≡ table_by (streams_to frame.now n) }
{
    let mut table = no_streams();
    for i in 0..n {
        table[i] = fields::entry(frame, i);
    }
    table
}

// One frame, read: its answer, and its stream table beside it.
pub fn read(frame: &[u8]) -> Reading
    ensures { Reads frame.now result }
{
    match judging::judge(frame) {
        Ok(()) => {
            let header = header(frame);
            let table = table(frame, header.nst as usize);
            Reading {
                answer: Ok(header),
                table,
            }
        }
        Err(refusal) => Reading {
            answer: Err(refusal),
            table: no_streams(),
        },
    }
}
