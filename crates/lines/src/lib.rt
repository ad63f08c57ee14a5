// The leased lines on byte slices, for C: out, back, clean rows, the frame made again, check bytes, a row's test.
#![tactic(auto)]

ghost use Rattle.std.specs.Prelude.{[]};
ghost use Rattle.array.specs.CodingArray.{lent};
ghost use Rattle.code.specs.CodeAnswers.{Checks};
ghost use Rattle.lines.specs.LinesBoundary.{Fourteen, LineOut, LineBack, LineRows, LineFrame, RowTold};

use refusals::Refusal;

// Whether a row of the variant has fourteen check bytes. The variant is 5592 or 5376.
#[tactic(auto, using(octets::proofs::Deciding::tests), unfolding(crate::specs::LinesBoundary::variant_refusal))]
fn fourteen(variant: usize) -> Result<bool, Refusal>
    ensures { Fourteen variant result }
{
    match variant {
        5592 => Ok(false),
        5376 => Ok(true),
        _ => Err(Refusal::TooWide),
    }
}

#[unsafe(no_mangle)]
pub extern "C" fn spindlewren_line_out(
    frame: &[u8],
    variant: usize,
    management: &[u8],
    supervision: &[u8],
    synchronising: &[u8],
    signalling: &[u8],
    output: &mut [u8],
) -> u8
    ensures { LineOut variant frame.now (lent [] management.now supervision.now synchronising.now signalling.now []) output.old output.new result }
{
    let Ok(fourteen) = fourteen(variant) else {
        return Refusal::TooWide.number();
    };
    refusals::outcome(line::out(
        frame,
        fourteen,
        management,
        supervision,
        synchronising,
        signalling,
        output,
    ))
}

#[unsafe(no_mangle)]
pub extern "C" fn spindlewren_line_back(
    output: &[u8],
    variant: usize,
    information: &mut [u8],
    management: &mut [u8],
    supervision: &mut [u8],
    synchronising: &mut [u8],
    signalling: &mut [u8],
    check: &mut [u8],
) -> u8
    ensures { LineBack variant output.now (lent information.old management.old supervision.old synchronising.old signalling.old check.old) (lent information.new management.new supervision.new synchronising.new signalling.new check.new) result }
{
    let Ok(fourteen) = fourteen(variant) else {
        return Refusal::TooWide.number();
    };
    refusals::outcome(homeward::back(
        output,
        fourteen,
        information,
        management,
        supervision,
        synchronising,
        signalling,
        check,
    ))
}

// Which of the 24 rows of an output array are clean, a byte for each.
#[unsafe(no_mangle)]
pub extern "C" fn spindlewren_line_rows(output: &[u8], variant: usize, clean: &mut [u8]) -> u8
    ensures { LineRows variant output.now clean.old clean.new result }
{
    let Ok(fourteen) = fourteen(variant) else {
        return Refusal::TooWide.number();
    };
    refusals::outcome(homeward::rows(output, fourteen, clean))
}

// The frame of the information, with the sync word 07 3A B6 where the choice is 0 and F8 C5 49 where it is another.
#[unsafe(no_mangle)]
pub extern "C" fn spindlewren_line_frame(
    information: &[u8],
    variant: usize,
    choice: u8,
    level: u8,
    frame: &mut [u8],
) -> u8
    ensures { LineFrame variant choice level information.now frame.old frame.new result }
{
    let Ok(fourteen) = fourteen(variant) else {
        return Refusal::TooWide.number();
    };
    refusals::outcome(remade::frame(information, fourteen, choice != 0, level, frame))
}

#[unsafe(no_mangle)]
pub extern "C" fn spindlewren_check_bytes(information: &[u8], check: &mut [u8]) -> u8
    ensures { Checks information.now check.old check.new result }
{
    refusals::outcome(code::check_bytes(information, check))
}

#[unsafe(no_mangle)]
pub extern "C" fn spindlewren_test_row(row: &[u8], check: usize, clean: &mut [u8]) -> u8
    ensures { RowTold row.now check clean.old clean.new result }
{
    if clean.len() != 1 {
        return Refusal::Length.number();
    }
    match code::test_row(row, check) {
        Ok(found) => {
            clean[0] = u8::from(found);
            0
        }
        Err(refusal) => refusal.number(),
    }
}
