// The sum, writing and a walk's n-th item on byte slices, for programs in other languages that test and measure them.
#![tactic(auto)]

ghost use Rattle.std.specs.Prelude.{◌≡◌, ◌<◌};
ghost use Rattle.sum.specs.Sum.{sum_of};
ghost use Rattle.frame.specs.Answers.{table_by};
ghost use Rattle.walker.specs.Advance.{item_of};
ghost use Rattle.walks.specs.WalkCalls.{Limited};
ghost use Rattle.entries.specs.Entered.{timestamp_by, entry_in, entries_to, fields_in, Entered};
ghost use Rattle.entries.specs.Numbered.{ten_bytes, item_bytes};

use frame::{Fields, Stream, Timestamp};
use refusals::Refusal;
use walk::Item;

#[tactic(auto, using(octets::proofs::Deciding::tests), unfolding(crate::specs::Entered::timestamp_by))]
fn timestamp(sort: u8, n: u32) -> Timestamp
    ensures { result ≡ timestamp_by sort n }
{
    match sort {
        0 => Timestamp::Absent,
        1 => Timestamp::Time(n),
        _ => Timestamp::Reserved(n),
    }
}

fn entry(bytes: &[u8; 401], i: usize) -> Stream
    requires { i < 64 }
    ensures { result ≡ entry_in bytes.now i }
{
    let at = 17 + 6 * i;
    Stream {
        scid: bytes[at],
        sad: octets::two(bytes, at + 1) as u16,
        tpl: bytes[at + 3],
        stl: octets::two(bytes, at + 4) as u16,
    }
}

fn table(bytes: &[u8; 401]) -> [Stream; 64]
    ensures { result ≡ table_by (entries_to bytes.now 64) }
{
    let mut table = reading::no_streams();
    for i in 0..64 {
        table[i] = entry(bytes, i);
    }
    table
}

fn fields(bytes: &[u8; 401]) -> Fields
    ensures { result ≡ fields_in bytes.now }
{
    Fields {
        level: bytes[0],
        fsync1: bytes[1] != 0,
        fct: bytes[2],
        ficf: bytes[3] != 0,
        fp: bytes[5],
        mid: bytes[6],
        mnsc: octets::two(bytes, 7) as u16,
        rfu: octets::two(bytes, 9) as u16,
        rfa: bytes[11],
        timestamp: timestamp(bytes[12], octets::word(bytes, 13) as u32),
        count: bytes[4] as usize,
        table: table(bytes),
    }
}

#[unsafe(no_mangle)]
pub extern "C" fn spindlewren_sum(bytes: &[u8]) -> u16
    ensures { result ≡ sum_of bytes.now }
{
    ring::sum(bytes)
}

// Writing's refusal, 0 for none; field bytes of another length are refused with 1.
#[unsafe(no_mangle)]
pub extern "C" fn spindlewren_write(given: &[u8], main: &[u8], out: &mut [u8]) -> u8
    ensures { Entered given.now main.now out.old out.new result }
{
    match <&[u8; 401]>::try_from(given) {
        Ok(given) => refusals::outcome(writing::write(fields(given), main, out)),
        Err(_) => Refusal::Length.number(),
    }
}

// A kind, a refusal's number and a place.
fn ten(kind: u8, number: u8, place: usize) -> [u8; 10]
    ensures { result ≡ ten_bytes kind number place }
{
    let place = place.to_be_bytes();
    [
        kind, number, place[0], place[1], place[2], place[3], place[4], place[5], place[6],
        place[7],
    ]
}

#[tactic(auto, unfolding(crate::specs::Numbered::item_bytes))]
fn in_bytes(item: Item) -> [u8; 10]
    ensures { result ≡ item_bytes item }
{
    match item {
        Item::Frame(place, _) => ten(0, 0, place),
        Item::Lost(place, refusal) => ten(1, refusal.number(), place),
        Item::Idle(place) => ten(2, Refusal::Null.number(), place),
        Item::Done(place) => ten(3, 0, place),
    }
}

// The n-th item of the record's walk with a limit of misses, from 0 on, in ten bytes: 27 for a limit outside 1 to 8, then 1 for answer bytes of another length.
#[unsafe(no_mangle)]
pub extern "C" fn spindlewren_nth(record: &[u8], limit: usize, n: usize, answer: &mut [u8]) -> u8
    ensures { Limited limit 10 (item_bytes (item_of limit «record».now n)) answer.old answer.new result }
{
    if let Err(refusal) = walk::limit_refusal(limit) {
        return refusal.number();
    }
    if answer.len() != 10 {
        return Refusal::Length.number();
    }
    let reached = walker::nth(record, limit, n);
    answer.copy_from_slice(&in_bytes(reached.step.item));
    0
}
