// A network frame sent over a leased line.
#![tactic(auto)]

ghost use Rattle.std.specs.Prelude.{◌≡◌, [], ◌<◌};
ghost use Rattle.array.specs.CodingArray.{lent};
ghost use Rattle.line.specs.NetworkOut.{fl_in, SendsFrame};
ghost use Rattle.refusals.specs.Refusals.{outcome_number};

use refusals::Refusal;

// FL of the FC that begins at a place: at byte 4 of a frame, at the first of its information.
pub fn fl(bytes: &[u8], at: usize) -> usize
    ensures { (result ≡ fl_in bytes.now at) × (result < 2048) }
{
    octets::word(bytes, at) % 2048
}

// The output array of a network frame, the parts beside it and its rows' check bytes. Refused for a part's length, then for reading's reasons, then for being too long.
pub fn out(
    frame: &[u8],
    fourteen: bool,
    management: &[u8],
    supervision: &[u8],
    synchronising: &[u8],
    signalling: &[u8],
    output: &mut [u8],
) -> Result<(), Refusal>
    ensures { SendsFrame fourteen frame.now (lent [] management.now supervision.now synchronising.now signalling.now []) output.old output.new (outcome_number result) }
{
    array::lengths(
        fourteen,
        output.len(),
        management.len(),
        supervision.len(),
        synchronising.len(),
        signalling.len(),
        24 * (240 - array::width(fourteen)),
    )?;
    judging::judge(frame)?;
    let end = 4 + (fl(frame, 4) + 3) * 4;
    outward::out_coded(
        &frame[4..end],
        fourteen,
        management,
        supervision,
        synchronising,
        signalling,
        output,
    )
}
