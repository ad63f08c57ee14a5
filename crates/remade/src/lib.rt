// The network frame made again from the information bytes that came back. Sync word and level are the caller's: neither is in the information.
#![tactic(auto)]

ghost use Rattle.std.specs.Prelude.{◌++◌, ◌≡◌, ◌-◌, ◌≤◌, ◌<◌, length, take, replicate};
ghost use Rattle.octets.specs.Words.{split, bytes4};
ghost use Rattle.remade.specs.Remaking.{early_refusal, MakesFrame};
ghost use Rattle.refusals.specs.Refusals.{outcome_number};

use refusals::Refusal;

// The frame that begins with the start and the logical bytes; the rest is padding.
fn made(information: &[u8], start: usize, logical: usize) -> [u8; 6144]
    requires { (logical ≤ length information.now) × (logical ≤ 6140) }
    ensures { result ≡ split bytes4 start ++ take logical information.now ++ replicate (6140 - logical) 0x55 }
{
    let mut frame = [0x55u8; 6144];
    putting::put4(&mut frame, 0, start);
    frame[4..4 + logical].copy_from_slice(&information[..logical]);
    frame
}

// Lengths, level, and whether the variant carries the frame.
fn early(
    most: usize,
    information: usize,
    output: usize,
    level: u8,
    logical: usize,
) -> Result<(), Refusal>
    ensures { outcome_number result ≡ early_refusal most information output level logical }
{
    if information != most {
        return Err(Refusal::Length);
    }
    if output != 6144 {
        return Err(Refusal::Length);
    }
    if level > 3 {
        return Err(Refusal::TooWide);
    }
    if most < logical {
        return Err(Refusal::TooLong);
    }
    Ok(())
}

// The network frame of the information with this sync word and level. Refused for a length, the level and being too long, then for reading's reasons, for the frame that would be made.
pub fn frame(
    information: &[u8],
    fourteen: bool,
    fsync1: bool,
    level: u8,
    out: &mut [u8],
) -> Result<(), Refusal>
    ensures { MakesFrame fourteen fsync1 level information.now out.old out.new (outcome_number result) }
{
    let logical = (line::fl(information, 0) + 3) * 4;
    let most = 3 * (array::width(fourteen) * 8 - 16);
    early(most, information.len(), out.len(), level, logical)?;
    let frame = made(information, meaning::sync(level, fsync1), logical);
    judging::judge(&frame)?;
    out.copy_from_slice(&frame);
    Ok(())
}
