// The leased lines, for C: the exports of the archive `lines`.
// The exports stand here once more, since no crate can be built on a static library, and others are built on `lines`.
#![tactic(auto)]

ghost use Rattle.std.specs.Prelude.{[]};
ghost use Rattle.array.specs.CodingArray.{lent};
ghost use Rattle.code.specs.CodeAnswers.{Checks};
ghost use Rattle.lines.specs.LinesBoundary.{LineOut, LineBack, LineRows, LineFrame, RowTold};

#[unsafe(no_mangle)]
pub extern "C" fn spindlewren_line_out(
    frame: &[u8],
    variant: usize,
    management: &[u8],
    supervision: &[u8],
    synchronising: &[u8],
    signalling: &[u8],
    output: &mut [u8],
) -> u8
    ensures { LineOut variant frame.now (lent [] management.now supervision.now synchronising.now signalling.now []) output.old output.new result }
{
    lines::spindlewren_line_out(
        frame,
        variant,
        management,
        supervision,
        synchronising,
        signalling,
        output,
    )
}

#[unsafe(no_mangle)]
pub extern "C" fn spindlewren_line_back(
    output: &[u8],
    variant: usize,
    information: &mut [u8],
    management: &mut [u8],
    supervision: &mut [u8],
    synchronising: &mut [u8],
    signalling: &mut [u8],
    check: &mut [u8],
) -> u8
    ensures { LineBack variant output.now (lent information.old management.old supervision.old synchronising.old signalling.old check.old) (lent information.new management.new supervision.new synchronising.new signalling.new check.new) result }
{
    lines::spindlewren_line_back(
        output,
        variant,
        information,
        management,
        supervision,
        synchronising,
        signalling,
        check,
    )
}

// Which of the 24 rows of an output array are clean, a byte for each.
#[unsafe(no_mangle)]
pub extern "C" fn spindlewren_line_rows(output: &[u8], variant: usize, clean: &mut [u8]) -> u8
    ensures { LineRows variant output.now clean.old clean.new result }
{
    lines::spindlewren_line_rows(output, variant, clean)
}

// The frame of the information, with the sync word 07 3A B6 where the choice is 0 and F8 C5 49 where it is another.
#[unsafe(no_mangle)]
pub extern "C" fn spindlewren_line_frame(
    information: &[u8],
    variant: usize,
    choice: u8,
    level: u8,
    frame: &mut [u8],
) -> u8
    ensures { LineFrame variant choice level information.now frame.old frame.new result }
{
    lines::spindlewren_line_frame(information, variant, choice, level, frame)
}

#[unsafe(no_mangle)]
pub extern "C" fn spindlewren_check_bytes(information: &[u8], check: &mut [u8]) -> u8
    ensures { Checks information.now check.old check.new result }
{
    lines::spindlewren_check_bytes(information, check)
}

#[unsafe(no_mangle)]
pub extern "C" fn spindlewren_test_row(row: &[u8], check: usize, clean: &mut [u8]) -> u8
    ensures { RowTold row.now check clean.old clean.new result }
{
    lines::spindlewren_test_row(row, check, clean)
}
