// The period at a place of a record: judged, its sync word, and the next place that begins like a frame.
#![tactic(auto)]

ghost use Rattle.std.specs.Prelude.{true, false, ◌≡◌, ◌+◌, ◌≤◌, ◌<◌, length};
ghost use Rattle.frame.specs.Rules.{refusal_of};
ghost use Rattle.refusals.specs.Refusals.{outcome_number};
ghost use Rattle.periods.specs.Periods.{part, fsync1_at, NoneStands};

use refusals::Refusal;

// Whether the period at p is there.
pub fn whole(bytes: &[u8], p: usize) -> bool
    ensures { (result ≡ true → p + 6144 ≤ length bytes.now) × (result ≡ false → length bytes.now < p + 6144) }
{
    let n = bytes.len();
    n >= 6144 && p <= n - 6144
}

// Why the period at p is refused, if it is.
pub fn judge_at(bytes: &[u8], p: usize) -> Result<(), Refusal>
    ensures { outcome_number result ≡ refusal_of (part bytes.now p) }
{
    if !whole(bytes, p) {
        return Err(Refusal::Length);
    }
    let e = p + 6144;
    judging::judge(&bytes[p..e])
}

// Whether its sync word is FSYNC1.
pub fn fsync1_at(bytes: &[u8], p: usize) -> bool
    ensures { result ≡ fsync1_at bytes.now p }
{
    if whole(bytes, p) {
        let e = p + 6144;
        return judging::is_fsync1(&bytes[p..e]);
    }
    false
}

// Whether p begins like a frame. The sync words, 073AB6 and F8C549, are each other's complement: in both, neighbouring bytes differ by 3D and then by 8C.
fn mark_at(bytes: &[u8], p: usize) -> bool
    requires { p + 6144 ≤ length bytes.now }
    ensures { result ≡ false → refusal_of (part bytes.now p) ≡ 0 → ⊥ }
{
    let a = bytes[p + 1];
    let b = bytes[p + 2];
    let c = bytes[p + 3];
    ((a ^ b) == 0x3D) & ((b ^ c) == 0x8C)
}

// Whether one of the 64 places from p on begins like a frame. No early exit, as `any` has, so that the loop compiles to vector compares.
fn marked(bytes: &[u8], p: usize) -> bool
    requires { p + 6208 ≤ length bytes.now }
    ensures { result ≡ false → NoneStands bytes.now p (p + 64) }
{
    let mut found = false;
    for i in 0..64 {
        found = found | mark_at(bytes, p + i);
    }
    found
}

// On past the whole blocks of 64 places in which nothing begins like a frame. 6208 is 64 and a period.
// A `while`: the place after the last whole block is what it hands back, which a range stepped by 64 would have to reckon again.
fn past_unmarked(bytes: &[u8], from: usize) -> usize
    ensures { NoneStands bytes.now from result }
{
    let n = bytes.len();
    if n < 6208 {
        return from;
    }
    let mut p = from;
    while p <= n - 6208 {
        if marked(bytes, p) {
            return p;
        }
        p += 64;
    }
    p
}

// On to the first place that begins like a frame, or to the end. Places that it passes need not be judged.
pub fn next_mark(bytes: &[u8], from: usize) -> usize
    ensures { NoneStands bytes.now from result }
{
    let n = bytes.len();
    if n < 6144 {
        return from;
    }
    let start = past_unmarked(bytes, from);
    let end = n - 6143;
    for p in start..end {
        if mark_at(bytes, p) {
            return p;
        }
    }
    start.max(end)
}
