// The answer of reading in bytes, for C: the header's values, then all 64 entries.
#![tactic(auto)]

ghost use Rattle.std.specs.Prelude.{◌++◌, ◌≡◌, eqb, length};
ghost use Rattle.octets.specs.Choice.{pick};
ghost use Rattle.octets.specs.Stores.{put};
ghost use Rattle.frame.specs.Answers.{sort_of, header_values};
ghost use Rattle.encoded.specs.AnswerBytes.{encode, head_counts, first_counts, first_values, second_counts, second_values, third_counts, third_values, stream_bytes, table_bytes};

use frame::{Header, Stream, Timestamp};

// The number of a timestamp's sort, as the answer's bytes have it.
fn sort(t: Timestamp) -> u8
    ensures { result ≡ sort_of t }
{
    match t {
        Timestamp::Absent => 0,
        Timestamp::Time(_) => 1,
        Timestamp::Reserved(_) => 2,
    }
}

// An entry in six bytes.
fn entry(s: Stream) -> [u8; 6]
    ensures { result ≡ stream_bytes s }
{
    let sad = s.sad.to_be_bytes();
    let stl = s.stl.to_be_bytes();
    [s.scid, sad[0], sad[1], s.tpl, stl[0], stl[1]]
}

// All 64 entries, from byte 22 on.
fn put_table(out: &mut [u8], table: [Stream; 64])
    requires { length out.old ≡ 406 }
    ensures { out.new ≡ put out.old 22 (table_bytes table) }
{
    for (i, s) in table.iter().enumerate() {
        putting::put_bytes(out, 22 + 6 * i, &entry(*s));
    }
}

// Level to FL.
fn first(h: Header) -> [u8; 9]
    ensures { result ≡ encode first_counts (first_values h) }
{
    let fsync1 = meaning::bit(h.fsync1);
    let ficf = meaning::bit(h.ficf);
    let fl = h.fl.to_be_bytes();
    [
        h.level, fsync1, h.fct, ficf, h.nst, h.fp, h.mid, fl[0], fl[1],
    ]
}

// MNSC to the timestamp.
fn second(h: Header) -> [u8; 9]
    ensures { result ≡ encode second_counts (second_values h) }
{
    let mnsc = h.mnsc.to_be_bytes();
    let rfu = h.rfu.to_be_bytes();
    let sort = sort(h.timestamp);
    let time = h.timestamp.number().to_be_bytes();
    [
        mnsc[0], mnsc[1], rfu[0], rfu[1], h.rfa, sort, time[1], time[2], time[3],
    ]
}

// Both main-stream sums.
fn third(h: Header) -> [u8; 4]
    ensures { result ≡ encode third_counts (third_values h) }
{
    let sent = h.sent.to_be_bytes();
    let worked = h.worked.to_be_bytes();
    [sent[0], sent[1], worked[0], worked[1]]
}

// An answer in its 406 bytes; other bytes are left as they were.
pub fn put_answer(out: &mut [u8], h: Header, table: [Stream; 64])
    ensures { out.new ≡ pick (eqb (length out.old) 406) (encode head_counts (header_values h) ++ table_bytes table) out.old }
{
    if out.len() != 406 {
        return;
    }
    putting::put_bytes(out, 0, &first(h));
    putting::put_bytes(out, 9, &second(h));
    putting::put_bytes(out, 18, &third(h));
    put_table(out, table);
}
