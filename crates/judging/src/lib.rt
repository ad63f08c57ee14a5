// The judge: why a frame is refused, by the rules in the order of their numbers.
#![tactic(auto)]

ghost use Rattle.std.specs.Prelude.{◌≡◌};
ghost use Rattle.frame.specs.Frame.{is_fsync1, streams_to, stl_total};
ghost use Rattle.frame.specs.Rules.{first, some_stl_above, refusal_of};
ghost use Rattle.refusals.specs.Refusals.{outcome_number};
ghost use Rattle.judging.specs.JudgeClauses.{body_rules, head_rules_of, body_rules_of};

use refusals::Refusal;

// What a run over a table's first entries finds: some STL above 684, and the sum of all STLs.
// Not one with refusing's: there the entries stand in a table and may be too wide, here in bytes, and no table is made of a frame before it is accepted.
#[derive(Clone, Copy)]
pub struct Seen {
    pub above: bool,
    pub total: u32,
}

pub fn look_over(frame: &[u8], n: u8) -> Seen
    ensures { (result.above ≡ some_stl_above 684 (streams_to frame.now n)) × (result.total ≡ stl_total (streams_to frame.now n)) }
{
    let mut above = false;
    let mut total: u32 = 0;
    for i in 0..n as usize {
        let entry = fields::entry(frame, i);
        above = above | (entry.stl > 684);
        total += entry.stl as u32;
    }
    Seen { above, total }
}

// Rules 2 to 5, which look at the first two words alone.
#[tactic(auto, using(octets::proofs::Deciding::tests))]
fn head_in(frame: &[u8]) -> Result<(), Refusal>
    ensures { outcome_number result ≡ first (head_rules_of frame.now) }
{
    let sync = fields::sync(frame);
    let fc = fields::fc(frame);
    if meaning::fsync(sync.fsync).is_none() {
        return Err(Refusal::Sync);
    }
    if meaning::status_level(sync.err).is_none() {
        return Err(Refusal::Status);
    }
    if octets::word(frame, 4) == 0xFFFFFFFF {
        return Err(Refusal::Null);
    }
    if fc.nst > 64 {
        return Err(Refusal::NstAbove);
    }
    Ok(())
}

// Rules 6 to 10.
fn body(sum: u16, sent: u16, fct: u8, long: bool, fl: usize, formula: usize) -> Result<(), Refusal>
    ensures { outcome_number result ≡ first (body_rules sum sent fct long fl formula) }
{
    if sum != sent {
        return Err(Refusal::HeaderSum);
    }
    if fct > 249 {
        return Err(Refusal::FctAbove);
    }
    if long {
        return Err(Refusal::StlAbove);
    }
    if fl != formula {
        return Err(Refusal::FlDiffers);
    }
    if fl > 1532 {
        return Err(Refusal::FlAbove);
    }
    Ok(())
}

fn body_in(frame: &[u8]) -> Result<(), Refusal>
    ensures { outcome_number result ≡ first (body_rules_of frame.now) }
{
    let fc = fields::fc(frame);
    let eoh = fields::eoh(frame);
    let seen = look_over(frame, fc.nst);
    let n = fc.nst as usize;
    body(
        ring::sum_between(frame, 4, 4 + ((n + 1) * 4 + 2)),
        eoh.sum,
        fc.fct,
        seen.above,
        fc.fl as usize,
        n + 1 + meaning::ficl(fc.ficf, fc.mid) + 2 * (seen.total as usize),
    )
}

// Why the bytes lent are refused, if they are. No sum is taken before the first two words have passed.
#[tactic(auto, using(octets::proofs::Deciding::tests), unfolding(frame::specs::Rules::refusal_of))]
pub fn judge(frame: &[u8]) -> Result<(), Refusal>
    ensures { outcome_number result ≡ refusal_of frame.now }
{
    if frame.len() != 6144 {
        return Err(Refusal::Length);
    }
    head_in(frame)?;
    body_in(frame)
}

// Whether the bytes lent are as many as a frame's and their sync word is FSYNC1.
#[tactic(auto, using(octets::proofs::Deciding::tests), unfolding(frame::specs::Frame::is_fsync1))]
pub fn is_fsync1(frame: &[u8]) -> bool
    ensures { result ≡ is_fsync1 frame.now }
{
    frame.len() == 6144 && meaning::is_fsync1(fields::sync(frame).fsync)
}
