// The way back of clause 8.4: the parts of an output array, by way of the interleaving array. No byte is judged.
#![tactic(auto)]

ghost use Rattle.std.specs.Prelude.{List, ◌≡◌, ℕ, ◌+◌, ◌-◌, ◌*◌, ◌<◌, length};
ghost use Rattle.octets.specs.Stores.{put};
ghost use Rattle.array.specs.Listed.{list};
ghost use Rattle.array.specs.CodingArray.{width_of, Wide, superblock, carried, lent};
ghost use Rattle.array.specs.OutputArray.{interleaved, array_row, array_of, g_bytes_of};
ghost use Rattle.homeward.specs.BackClauses.{stepped, Reaches, interleaving_of, cell, byte_of, block_of, check_byte_of, Out, NextRow, Room, HandsOut};
ghost use Rattle.homeward.specs.WayBack.{Returns};
ghost use Rattle.homeward.specs.RowsClean.{digit, clean_row, clean_rows, TellsRows};
ghost use Rattle.refusals.specs.Refusals.{outcome_number};

use refusals::Refusal;

// Bytes that stand a step apart, n of them, into out from at on.
fn put_each(x: &[u8], first: usize, step: usize, n: usize, out: &mut [u8], at: usize)
    requires { Reaches x.now out.old first step n at }
    ensures { out.new ≡ put out.old at (stepped x.now first step n) }
{
    for (m, to) in out[at..at + n].iter_mut().enumerate() {
        *to = x[first + step * m];
    }
}

// The interleaving array: each line of sixteen bytes without its first, which is one of G.704.
fn interleaving(output: &[u8; 6144]) -> [u8; 5760]
    ensures { result ≡ interleaving_of output.now }
{
    let mut array = [0u8; 5760];
    for line in 0..384 {
        put_each(output, 16 * line + 1, 1, 15, &mut array, 15 * line);
    }
    array
}

// The index of row i, column j in it.
fn interleaved(i: usize, j: usize) -> usize
    requires { (i < 24) × (j < 240) }
    ensures { result ≡ interleaved i j }
{
    1920 * (i / 8) + 8 * j + i % 8
}

// The information bytes of a first or second row of a superblock: the columns 0, 30, .. are left out.
fn put_upper_row(array: &[u8; 5760], w: usize, i: usize, out: &mut [u8], at: usize)
    requires { NextRow w i at array.now out.old }
    ensures { Out w array.now out.new (at + (w - 8)) }
{
    for b in 0..7 {
        put_each(array, interleaved(i, 30 * b + 1), 8, 29, out, at + 29 * b);
    }
    put_each(array, interleaved(i, 211), 8, w - 211, out, at + 203);
}

// The information bytes of superblock s.
fn put_superblock(array: &[u8; 5760], w: usize, s: usize, out: &mut [u8])
    requires { (Wide w) × (s < 3) × (Out w array.now out.old (s * superblock w)) }
    ensures { Out w array.now out.new ((s + 1) * superblock w) }
{
    let start = s * (w * 8 - 16);
    put_upper_row(array, w, 8 * s, out, start);
    put_upper_row(array, w, 8 * s + 1, out, start + (w - 8));
    for k in 2..8 {
        put_each(
            array,
            interleaved(8 * s + k, 0),
            8,
            w,
            out,
            start + k * w - 16,
        );
    }
}

fn put_information(array: &[u8; 5760], w: usize, out: &mut [u8])
    requires { (Wide w) × (length out.old ≡ carried w) }
    ensures { out.new ≡ list (byte_of w array.now) (carried w) }
{
    for s in 0..3 {
        put_superblock(array, w, s, out);
    }
}

// The management bytes, where first is 0, or the supervision bytes, where it is 1.
fn put_blocks(array: &[u8; 5760], first: usize, out: &mut [u8])
    requires { (first < 2) × (length out.old ≡ 24) }
    ensures { out.new ≡ list (block_of first array.now) 24 }
{
    for s in 0..3 {
        put_each(array, 1920 * s + first, 240, 8, out, 8 * s);
    }
}

fn put_check(array: &[u8; 5760], w: usize, out: &mut [u8])
    requires { (Wide w) × (w < 240) × (length out.old ≡ 24 * (240 - w)) }
    ensures { out.new ≡ list (check_byte_of w array.now) (24 * (240 - w)) }
{
    let r = 240 - w;
    for i in 0..24 {
        put_each(array, interleaved(i, w), 8, r, out, i * r);
    }
}

// The synchronising bytes, where first is 0, or the signalling bytes, where it is 16.
fn put_g_bytes(output: &[u8; 6144], first: usize, out: &mut [u8])
    requires { (first < 32) × (length out.old ≡ 192) }
    ensures { out.new ≡ g_bytes_of first output.now }
{
    put_each(output, first, 32, 192, out, 0);
}

// The parts that the coding array holds.
fn put_parts(
    array: &[u8; 5760],
    w: usize,
    information: &mut [u8],
    management: &mut [u8],
    supervision: &mut [u8],
    check: &mut [u8],
)
    requires { Room w information.old management.old supervision.old check.old }
    ensures { HandsOut w array.now information.new management.new supervision.new check.new }
{
    put_information(array, w, information);
    put_blocks(array, 0, management);
    put_blocks(array, 1, supervision);
    put_check(array, w, check);
}

// Information, management, supervision, synchronising, signalling and check bytes of an output array.
pub fn back(
    output: &[u8],
    fourteen: bool,
    information: &mut [u8],
    management: &mut [u8],
    supervision: &mut [u8],
    synchronising: &mut [u8],
    signalling: &mut [u8],
    check: &mut [u8],
) -> Result<(), Refusal>
    ensures { Returns fourteen output.now (lent information.old management.old supervision.old synchronising.old signalling.old check.old) (lent information.new management.new supervision.new synchronising.new signalling.new check.new) (outcome_number result) }
{
    let Ok(output) = <&[u8; 6144]>::try_from(output) else {
        return Err(Refusal::Length);
    };
    array::lengths(
        fourteen,
        output.len(),
        management.len(),
        supervision.len(),
        synchronising.len(),
        signalling.len(),
        check.len(),
    )?;
    let w = array::width(fourteen);
    if information.len() != 3 * (w * 8 - 16) {
        return Err(Refusal::Length);
    }
    put_g_bytes(output, 0, synchronising);
    put_g_bytes(output, 16, signalling);
    put_parts(
        &interleaving(output),
        w,
        information,
        management,
        supervision,
        check,
    );
    Ok(())
}

// Row i of the coding array.
fn array_row(array: &[u8; 5760], i: usize) -> [u8; 240]
    requires { i < 24 }
    ensures { result ≡ list (cell array.now i) 240 }
{
    let mut row = [0u8; 240];
    put_each(array, interleaved(i, 0), 8, 240, &mut row, 0);
    row
}

// The coding array of an interleaving array.
fn coding_array(array: &[u8; 5760]) -> [[u8; 240]; 24]
    ensures { (o : List ℕ) → array.now ≡ interleaving_of o → result ≡ array_of o }
{
    let empty = [0u8; 240];
    let mut coding = [empty; 24];
    for (i, row) in coding.iter_mut().enumerate() {
        *row = array_row(array, i);
    }
    coding
}

// Whether a row of the coding array is clean.
fn clean_row(row: &[u8; 240], fourteen: bool) -> bool
    ensures { (o : List ℕ) → (i : ℕ) → row.now ≡ array_row o i → digit result ≡ clean_row (width_of fourteen) o i }
{
    matches!(code::test_row(row, 240 - array::width(fourteen)), Ok(true))
}

fn put_rows(output: &[u8; 6144], fourteen: bool, clean: &mut [u8])
    requires { length clean.old ≡ 24 }
    ensures { clean.new ≡ clean_rows (width_of fourteen) output.now }
{
    let coding = coding_array(&interleaving(output));
    for (i, to) in clean.iter_mut().enumerate() {
        *to = u8::from(clean_row(&coding[i], fourteen));
    }
}

// Which of the 24 rows of an output array are clean, a byte for each as C has it.
pub fn rows(output: &[u8], fourteen: bool, clean: &mut [u8]) -> Result<(), Refusal>
    ensures { TellsRows fourteen output.now clean.old clean.new (outcome_number result) }
{
    let Ok(output) = <&[u8; 6144]>::try_from(output) else {
        return Err(Refusal::Length);
    };
    if clean.len() != 24 {
        return Err(Refusal::Length);
    }
    put_rows(output, fourteen, clean);
    Ok(())
}
