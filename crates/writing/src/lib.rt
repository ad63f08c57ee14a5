// Writing the one frame that the fields call for.
#![tactic(auto)]

ghost use Rattle.std.specs.Prelude.{[], ◌∷◌, ◌++◌, ◌≡◌, ◌+◌, ◌-◌, ◌*◌, ◌≤◌, length, take, replicate};
ghost use Rattle.octets.specs.Words.{split, join, bytes2, bytes4};
ghost use Rattle.frame.specs.Frame.{fc_widths, sstc_widths, tist_widths};
ghost use Rattle.frame.specs.Answers.{digit, time_by};
ghost use Rattle.frame.specs.Writing.{stream_values, streams_bytes, fl_in, sync_in, header_in, frame_in, Writes};
ghost use Rattle.octets.specs.Stores.{put};
ghost use Rattle.refusals.specs.Refusals.{outcome_number};
ghost use Rattle.writing.specs.WriteClauses.{Ready};

use frame::{Fields, Stream, Timestamp};
use refusals::Refusal;

fn stream_word(s: Stream) -> usize
    ensures { result ≡ join sstc_widths (stream_values s) }
{
    (s.scid as usize) * 67108864
        + (s.sad as usize) * 65536
        + (s.tpl as usize) * 1024
        + (s.stl as usize)
}

// The first n entries, from byte 8 on.
fn put_streams(out: &mut [u8], table: [Stream; 64], n: usize)
    requires { (n ≤ 64) × (length out.old ≡ 6144) }
    ensures { (out.new ≡ put out.old 8 (streams_bytes (take n table))) × (length table ≡ 64) }
{
    for i in 0..n {
        putting::put4(out, 8 + 4 * i, stream_word(table[i]));
    }
}

// 55 from a place up to the end.
fn pad(out: &mut [u8], from: usize)
    requires { from ≤ length out.old }
    ensures { out.new ≡ put out.old from (replicate (length out.old - from) 0x55) }
{
    out[from..].fill(0x55);
}

fn fc_word(fct: u8, ficf: bool, count: usize, fp: u8, mid: u8, fl: usize) -> usize
    requires { (count ≤ 64) × (fl ≤ 1532) }
    ensures { result ≡ join fc_widths (fct ∷ digit ficf ∷ count ∷ fp ∷ mid ∷ fl ∷ []) }
{
    (fct as usize) * 16777216
        + (meaning::bit(ficf) as usize) * 8388608
        + count * 65536
        + (fp as usize) * 8192
        + (mid as usize) * 2048
        + fl
}

fn tist_word(rfa: u8, timestamp: Timestamp) -> usize
    ensures { result ≡ join tist_widths (rfa ∷ time_by timestamp ∷ []) }
{
    (rfa as usize) * 16777216 + timestamp.number() as usize
}

// SYNC, FC, STC and MNSC.
fn put_header(out: &mut [u8], x: Fields, fl: usize)
    requires { (x.count ≤ 64) × (fl ≡ fl_in x) × (fl ≤ 1532) × (length out.old ≡ 6144) }
    ensures { (out.new ≡ put out.old 0 (sync_in x ++ header_in x)) × (length (header_in x) ≡ 6 + 4 * x.count) }
{
    putting::put4(out, 0, meaning::sync(x.level, x.fsync1));
    putting::put4(out, 4, fc_word(x.fct, x.ficf, x.count, x.fp, x.mid, fl));
    put_streams(out, x.table, x.count);
    putting::put2(out, 8 + 4 * x.count, x.mnsc);
}

// What follows the main stream, whose sum is given.
fn put_end(out: &mut [u8], at: usize, x: Fields, sum: u16)
    requires { at + 8 ≤ length out.old }
    ensures { out.new ≡ put out.old at (split bytes2 sum ++ split bytes2 x.rfu ++ split bytes4 (join tist_widths (x.rfa ∷ time_by x.timestamp ∷ []))) }
{
    putting::put2(out, at, sum);
    putting::put2(out, at + 2, x.rfu);
    putting::put4(out, at + 4, tist_word(x.rfa, x.timestamp));
}

fn fl(x: Fields) -> usize
    requires { x.count ≤ 64 }
    ensures { result ≡ fl_in x }
{
    let seen = refusing::look_over(x.table, x.count);
    x.count + 1 + meaning::ficl(meaning::bit(x.ficf), x.mid) + 2 * (seen.total as usize)
}

fn fill(x: Fields, main: &[u8], out: &mut [u8])
    requires { Ready x (length main.now) (length out.old) }
    ensures { out.new ≡ frame_in x main.now }
{
    let end = 10 + 4 * x.count;
    put_header(out, x, fl(x));
    let sum = ring::sum_between(out, 4, end);
    putting::put2(out, end, sum);
    putting::put_bytes(out, end + 2, main);
    let next = end + 2 + main.len();
    let main_sum = ring::sum_between(out, end + 2, next);
    put_end(out, next, x, main_sum);
    pad(out, next + 8);
}

// The frame that the fields and the main stream lent call for, into the output lent; refused, the output is as it was.
pub fn write(fields: Fields, main: &[u8], out: &mut [u8]) -> Result<(), Refusal>
    ensures { Writes fields main.now out.old out.new (outcome_number result) }
{
    refusing::refusal(fields, main.len(), out.len())?;
    fill(fields, main, out);
    Ok(())
}
