// The fault log of a night: records of sixteen bytes, written, judged and read.
#![tactic(auto)]

ghost use Rattle.std.specs.Prelude.{◌≡◌, ◌≢◌, ◌%◌, MatchResult, length, position, not};
ghost use Rattle.refusals.specs.Refusals.{outcome_number};
ghost use Rattle.nightlog.specs.Log.{lost_code, allowed, good_from, records_of, entry_of_record, Judges, Finds, WritesEntry};
ghost use Rattle.nightlog.specs.Log.{refusal_for, judged_number, judged_bad, found_entry};

use refusals::Refusal;

// The kinds of a record.
pub const FRAME: u8 = 0;

pub const LOST: u8 = 1;

pub const IDLE: u8 = 2;

// What a record holds: the place of an item, its kind, its code (FCT, refusal, 4), its level (FF unless a frame).
// Kind, code and level are numbers: `write` promises 29 for those that no record has, and C hands it any.
#[derive(Clone, Copy, Debug, PartialEq, Eq)]
pub struct Entry {
    pub place: usize,
    pub kind: u8,
    pub code: u8,
    pub level: u8,
}

// Why a log is refused: it is no whole number of records, or this record is the first bad one.
#[derive(Clone, Copy, Debug, PartialEq, Eq)]
pub enum BadLog {
    Length,
    Record(usize),
}

impl From<BadLog> for Refusal {
    ghost from_gives = { λ why r. r ≡ refusal_for why };

    fn from(why: BadLog) -> Refusal {
        match why {
            BadLog::Length => Refusal::LogLength,
            BadLog::Record(_) => Refusal::NotAllowed,
        }
    }
}

#[tactic(auto, using(octets::proofs::Deciding::tests), unfolding(crate::specs::Log::lost_code))]
fn lost_code(code: u8) -> bool
    ensures { result ≡ lost_code code }
{
    matches!(code, 2..=3 | 5..=10)
}

#[tactic(auto, using(octets::proofs::Deciding::tests), unfolding(crate::specs::Log::allowed))]
fn allows(kind: u8, code: u8, level: u8) -> bool
    ensures { result ≡ allowed kind code level }
{
    match kind {
        FRAME => code <= 249 && level <= 3,
        LOST => level == 0xFF && lost_code(code),
        IDLE => level == 0xFF && code == 4,
        _ => false,
    }
}

// Whether a record's five last bytes are zero, and its kind, code and level allowed.
#[tactic(auto, unfolding(crate::specs::Log::good_from, crate::specs::Log::tail_from, crate::specs::Log::entry_from))]
fn is_good(bytes: &[u8; 16]) -> bool
    ensures { result ≡ good_from bytes.now 0 }
{
    match bytes {
        [.., kind, code, level, 0, 0, 0, 0, 0] => allows(*kind, *code, *level),
        _ => false,
    }
}

// A record's entry, where it is good.
#[tactic(auto, unfolding(crate::specs::Log::entry_from))]
pub fn entry_in(bytes: &[u8; 16]) -> Option<Entry>
    ensures { result ≡ entry_of_record bytes.now }
{
    if !is_good(bytes) {
        return None;
    }
    Some(Entry {
        place: octets::eight(bytes, 0),
        kind: bytes[8],
        code: bytes[9],
        level: bytes[10],
    })
}

// A log's records.
pub fn records(log: &[u8]) -> Result<&[[u8; 16]], BadLog>
    ensures { MatchResult result (λ r. (r.now ≡ records_of log.now) × (length log.now % 16 ≡ 0)) (λ why. (why ≡ BadLog.Length) × (length log.now % 16 ≢ 0)) }
{
    let (records, rest) = log.as_chunks::<16>();
    if rest.is_empty() {
        Ok(records)
    } else {
        Err(BadLog::Length)
    }
}

// The number of the first bad record, from 0 on.
fn first_bad(records: &[[u8; 16]]) -> Option<usize>
    ensures { result ≡ position (λ r. not (good_from r 0)) records.now }
{
    records.iter().position(|bytes| !is_good(bytes))
}

// A log of any length, judged: 28, or 29 with the first bad record.
pub fn judge(log: &[u8]) -> Result<(), BadLog>
    ensures { Judges log.now (judged_number result) (judged_bad result) }
{
    let records = records(log)?;
    match first_bad(records) {
        Some(bad) => Err(BadLog::Record(bad)),
        None => Ok(()),
    }
}

// Record i of a log, at the same cost whatever the log's length: 28, then 34 where there is no such record, then 29 where it is bad.
pub fn read(log: &[u8], i: usize) -> Result<Entry, Refusal>
    ensures { Finds log.now i (outcome_number result) (found_entry result) }
{
    let records = records(log)?;
    match records.get(i) {
        Some(bytes) => entry_in(bytes).ok_or(Refusal::NotAllowed),
        None => Err(Refusal::PlaceOutside),
    }
}

// An entry into lent bytes: 37 when not exactly sixteen are lent, then 29. Nothing is written on a refusal.
pub fn write(entry: Entry, out: &mut [u8]) -> Result<(), Refusal>
    ensures { WritesEntry entry out.old out.new (outcome_number result) }
{
    if out.len() != 16 {
        return Err(Refusal::NotSixteen);
    }
    if !allows(entry.kind, entry.code, entry.level) {
        return Err(Refusal::NotAllowed);
    }
    putting::put8(out, 0, entry.place);
    putting::put_bytes(
        out,
        8,
        &[entry.kind, entry.code, entry.level, 0, 0, 0, 0, 0],
    );
    Ok(())
}
