// The way out of clause 8.4: the output array of the lent parts, by way of the coding array and the interleaving array.
#![tactic(auto)]

ghost use Rattle.std.specs.Prelude.{List, [], ◌++◌, ◌≡◌, ℕ, ◌+◌, ◌-◌, ◌*◌, ◌<◌, ◌≤◌, length, get_or, take};
ghost use Rattle.code.specs.Code.{check_bytes};
ghost use Rattle.coded.specs.Coded.{coded};
ghost use Rattle.array.specs.CodingArray.{width_of, lent, index_at, contents, coding_row, coding_array};
ghost use Rattle.array.proofs.Filling.{Filled};
ghost use Rattle.outward.specs.OutClauses.{Free, Held, in_array, beside, output_by, upper_row_at, lower_row_at, Block, Upper, Lower, Columns, interleaved_at, interleaving_by, PutsLine, refusal_for};
ghost use Rattle.array.specs.PartLengths.{parts_refusal};
ghost use Rattle.outward.specs.WayOut.{Sends};
ghost use Rattle.refusals.specs.Refusals.{outcome_number};

use refusals::Refusal;

// The information bytes, and FF behind them, as far as either variant carries.
fn filled(information: &[u8]) -> [u8; 5592]
    requires { length information.now ≤ 5592 }
    ensures { (n : ℕ) → get_or result n 255 ≡ get_or information.now n 255 }
{
    let mut all = [0xffu8; 5592];
    putting::put_bytes(&mut all, 0, information);
    all
}

// The index of the information byte in a cell that is free for one.
fn index_at(w: usize, i: usize, j: usize) -> usize
    requires { Free w i j }
    ensures { result ≡ index_at w i j }
{
    let before = i / 8 * (w * 8 - 16);
    if i % 8 < 2 {
        return before + i % 2 * (w - 8) + (j - 1) - j / 30;
    }
    before + i % 8 * w + j - 16
}

// Block b of a first or second row of a superblock: a byte from beside, then n information bytes.
fn put_block(
    information: &[u8; 5592],
    beside: &[u8],
    w: usize,
    i: usize,
    b: usize,
    n: usize,
    row: &mut [u8; 240],
)
    requires { Block w i b n information.now beside.now row.old }
    ensures { Filled (upper_row_at w information.now beside.now i) 0 240 row.new (30 * b + 1 + n) }
{
    let k = i / 8 * 8 + b;
    putting::put_bytes(row, 30 * b, &beside[k..k + 1]);
    let from = index_at(w, i, 30 * b + 1);
    putting::put_bytes(row, 30 * b + 1, &information[from..from + n]);
}

fn put_upper_row(information: &[u8; 5592], beside: &[u8], w: usize, i: usize, row: &mut [u8; 240])
    requires { Upper w i beside.now }
    ensures { Filled (upper_row_at w information.now beside.now i) 0 240 row.new w }
{
    for b in 0..7 {
        put_block(information, beside, w, i, b, 29, row);
    }
    put_block(information, beside, w, i, 7, w - 211, row);
}

fn put_lower_row(information: &[u8; 5592], w: usize, i: usize, row: &mut [u8; 240])
    requires { Lower w i }
    ensures { Filled (lower_row_at w information.now i) 0 240 row.new w }
{
    let from = index_at(w, i, 0);
    putting::put_bytes(row, 0, &information[from..from + w]);
}

// The information's columns of row i.
fn put_columns(
    information: &[u8; 5592],
    management: &[u8],
    supervision: &[u8],
    w: usize,
    i: usize,
    row: &mut [u8; 240],
)
    requires { Columns w i management.now supervision.now }
    ensures { (r : List ℕ) → Filled (contents w (in_array information.now management.now supervision.now r) i) 0 240 row.new w }
{
    match i % 8 {
        0 => put_upper_row(information, management, w, i, row),
        1 => put_upper_row(information, supervision, w, i, row),
        _ => put_lower_row(information, w, i, row),
    }
}

// Row i of the coding array.
fn coding_row(
    information: &[u8; 5592],
    management: &[u8],
    supervision: &[u8],
    check: &[u8],
    w: usize,
    i: usize,
) -> [u8; 240]
    requires { (Held w (in_array information.now management.now supervision.now check.now)) × (i < 24) }
    ensures { result ≡ coding_row w (in_array information.now management.now supervision.now check.now) i }
{
    let mut row = [0u8; 240];
    put_columns(information, management, supervision, w, i, &mut row);
    let r = 240 - w;
    putting::put_bytes(&mut row, w, &check[i * r..i * r + r]);
    row
}

fn coding_array(
    information: &[u8],
    management: &[u8],
    supervision: &[u8],
    check: &[u8],
    w: usize,
) -> [[u8; 240]; 24]
    requires { (Held w (in_array information.now management.now supervision.now check.now)) × (length information.now ≤ 5592) }
    ensures { result ≡ coding_array w (in_array information.now management.now supervision.now check.now) }
{
    let all = filled(information);
    let empty = [0u8; 240];
    let mut array = [empty; 24];
    for (i, row) in array.iter_mut().enumerate() {
        *row = coding_row(&all, management, supervision, check, w, i);
    }
    array
}

// The row with the check bytes of its information columns.
fn coded_row(row: [u8; 240], fourteen: bool) -> [u8; 240]
    ensures { result ≡ take (width_of fourteen) row ++ check_bytes (240 - width_of fourteen) (take (width_of fourteen) row) }
{
    let mut out = row;
    let (information, check) = out.split_at_mut(array::width(fourteen));
    code::check_bytes(information, check).unwrap();
    out
}

// The coding array with its rows' check bytes.
fn coded_array(
    information: &[u8],
    management: &[u8],
    supervision: &[u8],
    fourteen: bool,
) -> [[u8; 240]; 24]
    requires { (length information.now ≤ 5592) × (length management.now ≡ 24) × (length supervision.now ≡ 24) }
    ensures { result ≡ coding_array (width_of fourteen) (coded (width_of fourteen) (in_array information.now management.now supervision.now [])) }
{
    let w = array::width(fourteen);
    let all = filled(information);
    let none = [0u8; 336];
    let empty = [0u8; 240];
    let mut array = [empty; 24];
    for (i, row) in array.iter_mut().enumerate() {
        let uncoded = coding_row(&all, management, supervision, &none, w, i);
        *row = coded_row(uncoded, fourteen);
    }
    array
}

// Column u, counted through the superblocks: its eight bytes stand together in the interleaving array.
fn put_column(array: &[[u8; 240]; 24], u: usize, out: &mut [u8; 5760])
    requires { (u < 720) × (Filled (interleaved_at array.now) 0 5760 out.old (8 * u)) }
    ensures { Filled (interleaved_at array.now) 0 5760 out.new (8 * u + 8) }
{
    for k in 0..8 {
        out[8 * u + k] = array[u / 240 * 8 + k][u % 240];
    }
}

fn interleaving(array: &[[u8; 240]; 24]) -> [u8; 5760]
    ensures { result ≡ interleaving_by array.now }
{
    let mut out = [0u8; 5760];
    for u in 0..720 {
        put_column(array, u, &mut out);
    }
    out
}

// A line of sixteen bytes of the output array: one of G.704, then fifteen of the interleaving array.
fn put_line(array: &[u8; 5760], line: usize, first: &[u8], output: &mut [u8])
    requires { (line < 384) × (length first.now ≡ 1) × (length output.old ≡ 6144) }
    ensures { PutsLine array.now line first.now output.old output.new }
{
    putting::put_bytes(output, 16 * line, first);
    putting::put_bytes(output, 16 * line + 1, &array[15 * line..15 * line + 15]);
}

fn put_output(array: &[[u8; 240]; 24], synchronising: &[u8], signalling: &[u8], output: &mut [u8])
    requires { (length synchronising.now ≡ 192) × (length signalling.now ≡ 192) × (length output.old ≡ 6144) }
    ensures { output.new ≡ output_by (beside synchronising.now signalling.now) array.now }
{
    let interleaved = interleaving(array);
    for n in 0..192 {
        put_line(&interleaved, 2 * n, &synchronising[n..n + 1], output);
        put_line(&interleaved, 2 * n + 1, &signalling[n..n + 1], output);
    }
}

// Refused where a part or the output has another length than the variant's, then where there is more information than it carries.
fn fits(
    information: usize,
    fourteen: bool,
    management: usize,
    supervision: usize,
    synchronising: usize,
    signalling: usize,
    check: usize,
    output: usize,
) -> Result<(), Refusal>
    ensures { outcome_number result ≡ refusal_for information (parts_refusal (width_of fourteen) output management supervision synchronising signalling check) (width_of fourteen) }
{
    array::lengths(
        fourteen,
        output,
        management,
        supervision,
        synchronising,
        signalling,
        check,
    )?;
    if 3 * (array::width(fourteen) * 8 - 16) < information {
        return Err(Refusal::TooLong);
    }
    Ok(())
}

// The output array of information, management, supervision, synchronising, signalling and check bytes.
// The parts come one by one, as C lends them.
pub fn out(
    information: &[u8],
    fourteen: bool,
    management: &[u8],
    supervision: &[u8],
    synchronising: &[u8],
    signalling: &[u8],
    check: &[u8],
    output: &mut [u8],
) -> Result<(), Refusal>
    ensures { Sends fourteen (lent information.now management.now supervision.now synchronising.now signalling.now check.now) output.old output.new (outcome_number result) }
{
    fits(
        information.len(),
        fourteen,
        management.len(),
        supervision.len(),
        synchronising.len(),
        signalling.len(),
        check.len(),
        output.len(),
    )?;
    let w = array::width(fourteen);
    let array = coding_array(information, management, supervision, check, w);
    put_output(&array, synchronising, signalling, output);
    Ok(())
}

// The same with the rows' check bytes, which no one lends.
pub fn out_coded(
    information: &[u8],
    fourteen: bool,
    management: &[u8],
    supervision: &[u8],
    synchronising: &[u8],
    signalling: &[u8],
    output: &mut [u8],
) -> Result<(), Refusal>
    ensures { Sends fourteen (coded (width_of fourteen) (lent information.now management.now supervision.now synchronising.now signalling.now [])) output.old output.new (outcome_number result) }
{
    fits(
        information.len(),
        fourteen,
        management.len(),
        supervision.len(),
        synchronising.len(),
        signalling.len(),
        24 * (240 - array::width(fourteen)),
        output.len(),
    )?;
    let array = coded_array(information, management, supervision, fourteen);
    put_output(&array, synchronising, signalling, output);
    Ok(())
}
