// Logs on numbers and byte slices, for C.
#![tactic(auto)]

ghost use Rattle.std.specs.Prelude.{◌≡◌, ◌*◌};
ghost use Rattle.nightlog.specs.Log.{judged_number, judged_bad, entry_from, entry_refusal_of, WritesEntry};
ghost use Rattle.controller.specs.Boundary.{Told};
ghost use Rattle.logs.specs.LogBytes.{judged_bytes, entry_bytes};

use nightlog::{BadLog, Entry};
use refusals::Refusal;

// An item into sixteen lent bytes: 37 for another length, then 29 for a kind, code or level that is not allowed; refused, not one byte is written.
#[unsafe(no_mangle)]
pub extern "C" fn spindlewren_log_write(
    place: usize,
    kind: u8,
    code: u8,
    level: u8,
    out: &mut [u8],
) -> u8
    ensures { WritesEntry (record { place = place; kind = kind; code = code; level = level }) out.old out.new result }
{
    let entry = Entry {
        place,
        kind,
        code,
        level,
    };
    refusals::outcome(nightlog::write(entry, out))
}

// What C is told of a judged log: its number, and the bad record for 29.
fn told(judged: Result<(), BadLog>) -> (u8, usize)
    ensures { (result.0 ≡ judged_number judged) × (result.1 ≡ judged_bad judged) }
{
    match judged {
        Ok(()) => (0, 0),
        Err(BadLog::Length) => (Refusal::LogLength.number(), 0),
        Err(BadLog::Record(bad)) => (Refusal::NotAllowed.number(), bad),
    }
}

// A log judged, into nine lent bytes: 1 for another length.
#[unsafe(no_mangle)]
pub extern "C" fn spindlewren_log_judged(bytes: &[u8], out: &mut [u8]) -> u8
    ensures { Told 9 0 (judged_bytes bytes.now) out.old out.new result }
{
    if out.len() != 9 {
        return Refusal::Length.number();
    }
    let (number, bad) = told(nightlog::judge(bytes));
    putting::put_bytes(out, 0, &[number]);
    putting::put8(out, 1, bad);
    0
}

// Record i of a log, into eleven lent bytes: 1 for another length, then 28, 34 where there is no such record, 29 where it is bad.
#[unsafe(no_mangle)]
pub extern "C" fn spindlewren_log_entry(bytes: &[u8], i: usize, out: &mut [u8]) -> u8
    ensures { Told 11 (entry_refusal_of bytes.now i) (entry_bytes (entry_from bytes.now (16 * i))) out.old out.new result }
{
    if out.len() != 11 {
        return Refusal::Length.number();
    }
    match nightlog::read(bytes, i) {
        Ok(entry) => {
            putting::put8(out, 0, entry.place);
            putting::put_bytes(out, 8, &[entry.kind, entry.code, entry.level]);
            0
        }
        Err(refusal) => refusal.number(),
    }
}
