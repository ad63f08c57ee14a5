// What single fields mean: functions of their values alone.
#![tactic(auto)]

ghost use Rattle.std.specs.Prelude.{MatchOption, [], ◌∷◌, ◌≡◌, ◌≤◌, ◌<◌, eqb};
ghost use Rattle.octets.specs.Words.{join};
ghost use Rattle.sum.specs.Sum.{digit};
ghost use Rattle.octets.specs.Choice.{place_in};
ghost use Rattle.frame.specs.Frame.{statuses, status_by, fsyncs, fsync_by, sync_widths, ficl_by};

// Which of the two sync words n is: whether it is FSYNC1; None where it is neither.
pub fn fsync(n: u32) -> Option<bool>
    ensures { MatchOption result (place_in fsyncs n ≡ 2) (λ fsync1. digit fsync1 ≡ place_in fsyncs n) }
{
    match n {
        0x073AB6 => Some(false),
        0xF8C549 => Some(true),
        _ => None,
    }
}

// Whether n is FSYNC1.
#[tactic(auto, using(octets::proofs::Deciding::tests))]
pub fn is_fsync1(n: u32) -> bool
    ensures { result ≡ eqb (place_in fsyncs n) 1 }
{
    matches!(fsync(n), Some(true))
}

// The level of a status byte; None where it is none of the four.
pub fn status_level(status: u8) -> Option<u8>
    ensures { MatchOption result (place_in statuses status ≡ 4) (λ level. (level ≡ place_in statuses status) × (level < 4)) }
{
    match status {
        0xFF => Some(0),
        0xF0 => Some(1),
        0x0F => Some(2),
        0x00 => Some(3),
        _ => None,
    }
}

// The level of a status byte as a field set holds it: 4, which writing refuses as too wide, where it is none.
pub fn level(status: u8) -> u8
    ensures { result ≡ place_in statuses status }
{
    status_level(status).unwrap_or(4)
}

// The status byte of a level; of a number that is no level, 00.
fn status(level: u8) -> usize
    ensures { (result ≡ status_by level) × (result < 256) }
{
    match level {
        0 => 0xFF,
        1 => 0xF0,
        2 => 0x0F,
        _ => 0x00,
    }
}

fn sync_word(fsync1: bool) -> usize
    ensures { (result ≡ fsync_by (digit fsync1)) × (result < 16777216) }
{
    if fsync1 { 0xF8C549 } else { 0x073AB6 }
}

// SYNC: a level's status byte, and which of the two sync words.
pub fn sync(level: u8, fsync1: bool) -> usize
    ensures { result ≡ join sync_widths (status_by level ∷ fsync_by (digit fsync1) ∷ []) }
{
    status(level) * 16777216 + sync_word(fsync1)
}

// A flag as its bit: not u8::from at each place, since its contract has the word digit, by which the frame's values are stated.
pub fn bit(b: bool) -> u8
    ensures { result ≡ digit b }
{
    u8::from(b)
}

#[tactic(auto, using(octets::proofs::Deciding::tests), unfolding(frame::specs::Frame::ficl_by))]
pub fn ficl(ficf: u8, mid: u8) -> usize
    ensures { (result ≡ ficl_by ficf mid) × (result ≤ 32) }
{
    if ficf == 0 {
        0
    } else if mid == 3 {
        32
    } else {
        24
    }
}
