// The sheet of a log: how many items of each sort, and how many frames are missing; further logs are added to it.
#![tactic(auto)]

ghost use Rattle.std.specs.Prelude.{[], ◌∷◌, ◌≡◌, ℕ, ◌<◌, length, get_or};
ghost use Rattle.sheet.specs.Sheets.{row_by, gap, totals_added, run_added, all_at_most, run_goes_on, goes_on};
ghost use Rattle.sheet.specs.Sheets.{refusal_for, added_number, added_bad, sheet_after, Adds};
ghost use Rattle.sheet.specs.declared.NotAdded.TheVariants.{Log};

use nightlog::{BadLog, Entry, FRAME, LOST};
use refusals::Refusal;

// Frames missing are counted in two numbers, high times so many and low.
const BILLION: usize = 1_000_000_000;

// What is kept from frame to frame: the frames missing, high and low; whether a frame was met, 0 or 1; the last one's FCT.
// How many are missing is two numbers, as C's bytes have it.
// Not an Option of an FCT: C hands in any two bytes, and `goes_on` refuses an FCT where none was met, and a met above 1.
#[derive(Clone, Copy)]
pub struct Run {
    pub high: usize,
    pub low: usize,
    pub met: u8,
    pub fct: u8,
}

// Totals: 0 to 3 frames at that level, 4 + n lost marks of refusal n, 15 idle items.
#[derive(Clone, Copy)]
pub struct Sheet {
    pub totals: [usize; 16],
    pub run: Run,
}

// Why a log is not added to a sheet: it is refused, or the sheet cannot go on.
#[derive(Clone, Copy, Debug, PartialEq, Eq)]
pub enum NotAdded {
    Log(BadLog),
    CannotGoOn,
}

impl From<BadLog> for NotAdded {
    ghost from_gives = { λ why e. e ≡ Log why };

    fn from(why: BadLog) -> NotAdded {
        NotAdded::Log(why)
    }
}

impl From<NotAdded> for Refusal {
    ghost from_gives = { λ why r. r ≡ refusal_for why };

    fn from(why: NotAdded) -> Refusal {
        match why {
            NotAdded::Log(bad) => Refusal::from(bad),
            NotAdded::CannotGoOn => Refusal::TooWide,
        }
    }
}

#[tactic(auto, using(octets::proofs::Deciding::tests), unfolding(crate::specs::Sheets::row_by))]
fn row(entry: Entry) -> usize
    ensures { result ≡ row_by entry.kind entry.code entry.level }
{
    match entry.kind {
        FRAME => usize::from(entry.level),
        LOST => 4 + usize::from(entry.code),
        _ => 15,
    }
}

// One entry more in its row of the totals. A row beyond the last is none.
fn count(totals: &mut [usize; 16], entry: Entry)
    requires { (k : ℕ) → get_or totals.old k 0 < 18446744073709551615 }
    ensures { totals.new ≡ totals_added totals.old (entry ∷ []) }
{
    let row = row(entry);
    if row < totals.len() {
        totals[row] += 1;
    }
}

// Frames missing from the FCT a to the FCT b.
fn gap_between(a: u8, b: u8) -> usize
    ensures { (result ≡ gap a b) × (result < 250) }
{
    (usize::from(b) + 499 - usize::from(a)) % 250
}

// One entry more in a row of frames: others than frames are skipped.
fn run_with(run: Run, entry: Entry) -> Run
    requires { (run.low < 1000000000) × (run.high < 18446744073709551615) }
    ensures { result ≡ run_added run (entry ∷ []) }
{
    let fct = entry.code;
    if entry.kind != FRAME {
        return run;
    }
    if run.met == 0 {
        return Run { met: 1, fct, ..run };
    }
    let sum = run.low + gap_between(run.fct, fct);
    Run {
        high: run.high + sum / BILLION,
        low: sum % BILLION,
        met: 1,
        fct,
    }
}

fn room(totals: [usize; 16], most: usize) -> bool
    ensures { (result ≡ all_at_most most totals) × (length totals ≡ 16) }
{
    totals.iter().all(|total| *total <= most)
}

#[tactic(auto, using(octets::proofs::Deciding::tests), unfolding(crate::specs::Sheets::run_goes_on))]
fn run_goes_on(run: Run, most: usize) -> bool
    ensures { result ≡ run_goes_on run most }
{
    let follows = match run.met {
        0 => run.fct == 0,
        1 => run.fct <= 249,
        _ => false,
    };
    run.high <= most && run.low < BILLION && follows
}

// Whether n entries more can be added to a sheet.
#[tactic(auto, unfolding(crate::specs::Sheets::goes_on))]
fn goes_on(sheet: Sheet, n: usize) -> bool
    ensures { (result ≡ goes_on sheet n) × (length sheet.totals ≡ 16) }
{
    let most = usize::MAX - n;
    room(sheet.totals, most) && run_goes_on(sheet.run, most)
}

// A log added to a sheet, judged and added up in one pass: 28, 29 with the first bad record, then 12 when the sheet cannot go on.
pub fn add(sheet: Sheet, log: &[u8]) -> Result<Sheet, NotAdded>
    ensures { Adds sheet log.now (added_number result) (added_bad result) (sheet_after sheet result) }
{
    let records = nightlog::records(log)?;
    if !goes_on(sheet, records.len()) {
        nightlog::judge(log)?;
        return Err(NotAdded::CannotGoOn);
    }
    let mut totals = sheet.totals;
    let mut run = sheet.run;
    for (i, bytes) in records.iter().enumerate() {
        let entry = nightlog::entry_in(bytes).ok_or(BadLog::Record(i))?;
        count(&mut totals, entry);
        run = run_with(run, entry);
    }
    Ok(Sheet { totals, run })
}
