// Both round trips as running code: a frame read and written again, with the level that reading handed on, and fields written and read back.
#![tactic(auto)]

ghost use Rattle.std.specs.Prelude.{◌≡◌, length};
ghost use Rattle.frame.specs.Rules.{refusal_of};
ghost use Rattle.refusals.specs.Refusals.{outcome_number};
ghost use Rattle.relay.specs.Back.{ReadsBack};
ghost use Rattle.relay.specs.Relaying.{fields_with, fields_for, Relays};

use frame::{Fields, Header, Reading, Stream};
use refusals::Refusal;

fn fields(h: Header, table: [Stream; 64]) -> Fields
    ensures { result ≡ fields_with h table }
{
    Fields {
        level: h.level,
        fsync1: h.fsync1,
        fct: h.fct,
        ficf: h.ficf,
        fp: h.fp,
        mid: h.mid,
        mnsc: h.mnsc,
        rfu: h.rfu,
        rfa: h.rfa,
        timestamp: h.timestamp,
        count: h.nst as usize,
        table,
    }
}

fn again(frame: &[u8], x: Fields, out: &mut [u8]) -> Result<(), Refusal>
    requires { (refusal_of frame.now ≡ 0) × (x ≡ fields_for frame.now) }
    ensures { Relays frame.now out.old out.new (outcome_number result) }
{
    writing::write(x, parts::main_stream(frame), out)
}

// A frame read and written again, refused as reading is, then for an output of another length; refused, the output is as it was.
pub fn relay(frame: &[u8], out: &mut [u8]) -> Result<(), Refusal>
    ensures { Relays frame.now out.old out.new (outcome_number result) }
{
    let reading = reading::read(frame);
    let header = reading.answer?;
    again(frame, fields(header, reading.table), out)
}

// The fields and the main stream lent are written into the output lent, which is then read: writing's refusal, or the fields again.
pub fn write_read(fields: Fields, main: &[u8], out: &mut [u8]) -> Reading
    ensures { ReadsBack fields main.now out.old out.new result }
{
    match writing::write(fields, main, out) {
        Ok(()) => reading::read(out),
        Err(refusal) => Reading {
            answer: Err(refusal),
            table: reading::no_streams(),
        },
    }
}
