// The judge of the fields given to writing, by writing's rules in its order.
#![tactic(auto)]

ghost use Rattle.std.specs.Prelude.{◌||◌, ◌≡◌, ◌≤◌, ltb, take};
ghost use Rattle.frame.specs.Frame.{sstc_widths, stl_total};
ghost use Rattle.frame.specs.Rules.{first, some_stl_above};
ghost use Rattle.frame.specs.Writing.{plain_widths, plain_in, some_wider, time_wider, stream_values, some_stream_wider, wider, writing_refusal_of};
ghost use Rattle.refusals.specs.Refusals.{outcome_number};
ghost use Rattle.refusing.specs.RefuseClauses.{head_rules, body_rules, body_of};

use frame::{Fields, Stream, Timestamp};
use refusals::Refusal;

fn stream_wider(s: Stream) -> bool
    ensures { result ≡ some_wider sstc_widths (stream_values s) }
{
    s.scid >= 64 || s.sad >= 1024 || s.tpl >= 64 || s.stl >= 1024
}

// What the rules look at in the entries that have effect: some wider than its fields, some STL above 684, the sum of all STLs.
#[derive(Clone, Copy)]
pub struct Seen {
    pub wider: bool,
    pub above: bool,
    pub total: u32,
}

pub fn look_over(table: [Stream; 64], count: usize) -> Seen
    ensures { (result.wider ≡ some_stream_wider (take count table)) × (result.above ≡ some_stl_above 684 (take count table)) × (result.total ≡ stl_total (take count table)) }
{
    let mut wider = false;
    let mut above = false;
    let mut total: u32 = 0;
    let entries = &table[..count.min(64)];
    for s in entries {
        wider = wider | stream_wider(*s);
        above = above | (s.stl > 684);
        total += s.stl as u32;
    }
    Seen {
        wider,
        above,
        total,
    }
}

// A byte for FCT and for Rfa, and two for MNSC and for Rfu, are never too wide.
fn head_wider(x: Fields) -> bool
    ensures { result ≡ (ltb 3 x.level || some_wider plain_widths (plain_in x)) }
{
    x.level > 3 || x.fp >= 8 || x.mid >= 4
}

fn time_wider(timestamp: Timestamp) -> bool
    ensures { result ≡ time_wider timestamp }
{
    match timestamp {
        Timestamp::Absent => false,
        Timestamp::Time(n) => n > 0xF9FFFF,
        Timestamp::Reserved(n) => n < 0xFA0000 || n > 0xFFFFFE,
    }
}

// Rules 1, 12 and 5.
fn head(out: usize, wide: bool, count: usize) -> Result<(), Refusal>
    ensures { outcome_number result ≡ first (head_rules out wide count) }
{
    if out != 6144 {
        return Err(Refusal::Length);
    }
    if wide {
        return Err(Refusal::TooWide);
    }
    if count > 64 {
        return Err(Refusal::NstAbove);
    }
    Ok(())
}

// Rules 7, 8, 10 and 11.
fn body(fct: u8, long: bool, fl: usize, main: usize, wanted: usize) -> Result<(), Refusal>
    ensures { outcome_number result ≡ first (body_rules fct long fl main wanted) }
{
    if fct > 249 {
        return Err(Refusal::FctAbove);
    }
    if long {
        return Err(Refusal::StlAbove);
    }
    if fl > 1532 {
        return Err(Refusal::FlAbove);
    }
    if main != wanted {
        return Err(Refusal::MainLength);
    }
    Ok(())
}

fn wide(x: Fields) -> bool
    ensures { result ≡ wider x }
{
    let seen = look_over(x.table, x.count);
    head_wider(x) | (time_wider(x.timestamp) | seen.wider)
}

fn body_in(x: Fields, main: usize) -> Result<(), Refusal>
    requires { x.count ≤ 64 }
    ensures { outcome_number result ≡ first (body_of x main) }
{
    let ficl = meaning::ficl(meaning::bit(x.ficf), x.mid);
    let seen = look_over(x.table, x.count);
    let total = seen.total as usize;
    body(
        x.fct,
        seen.above,
        x.count + 1 + ficl + 2 * total,
        main,
        4 * ficl + 8 * total,
    )
}

// Whether the fields are refused, with the lengths of the main stream and the output lent.
pub fn refusal(x: Fields, main: usize, out: usize) -> Result<(), Refusal>
    ensures { outcome_number result ≡ writing_refusal_of x main out }
{
    head(out, wide(x), x.count)?;
    body_in(x, main)
}
