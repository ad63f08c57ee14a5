// The size of a sub-channel in capacity units, from TPL and STL.
#![tactic(auto)]

ghost use Rattle.std.specs.Prelude.{◌≡◌, ◌+◌, ◌*◌, ◌/◌, ◌%◌, ◌<◌, ◌≤◌, ◌==◌, get_or, position};
ghost use Rattle.capacity.specs.Sizes.{stls, equal_a, equal_b, per_n, unequal_sizes, unequal_size, equal_size, size_by, units_by, equal_in};

// The STLs of the rates, and the sizes of each at levels 5 to 1; 0 for a dash.
const STLS: [u16; 14] = [12, 18, 21, 24, 30, 36, 42, 48, 60, 72, 84, 96, 120, 144];

const SIZES: [[u16; 5]; 14] = [
    [16, 21, 24, 29, 35],
    [24, 29, 35, 42, 52],
    [29, 35, 42, 52, 0],
    [32, 42, 48, 58, 70],
    [40, 52, 58, 70, 84],
    [48, 58, 70, 84, 104],
    [58, 70, 84, 104, 0],
    [64, 84, 96, 116, 140],
    [80, 104, 116, 140, 168],
    [96, 116, 140, 168, 208],
    [116, 140, 168, 208, 232],
    [128, 168, 192, 232, 280],
    [160, 208, 0, 280, 0],
    [192, 0, 280, 0, 416],
];

// The row of an STL in the table of sizes.
fn row(stl: u16) -> Option<usize>
    ensures { result ≡ position (λ s. stl == s) stls }
{
    STLS.iter().position(|s| stl == *s)
}

fn listed(row: usize, column: usize) -> u16
    requires { (row < 14) × (column < 5) }
    ensures { (result ≡ get_or unequal_sizes (5 * row + column) 0) × (result ≤ 416) }
{
    SIZES[row][column]
}

#[tactic(auto, using(octets::proofs::Deciding::tests), unfolding(crate::specs::Sizes::unequal_size))]
fn unequal(index: u8, stl: u16) -> u32
    ensures { (result ≡ unequal_size index stl) × (result ≤ 416) }
{
    if index > 4 {
        return 0;
    }
    match row(stl) {
        Some(row) => u32::from(listed(row, 4 - usize::from(index))),
        None => 0,
    }
}

// By TPL's index 12, 8, 6, 4 and 27, 21, 18, 15, without a branch. Not one function of both: it would be told the last and the step, and promise no row.
fn each_a(tpl: u16) -> u16
    ensures { (result ≡ get_or equal_a (tpl % 4) 0) × (result ≤ 12) }
{
    4 + 2 * (4 >> (tpl % 4))
}

fn each_b(tpl: u16) -> u16
    ensures { (result ≡ get_or equal_b (tpl % 4) 0) × (result ≤ 27) }
{
    15 + 3 * (4 >> (tpl % 4))
}

// An STL that is no multiple of the unit has no size. Here and below the bound is promised with the number, since a place is SAD and units, and has to fit.
fn per_n(unit: u16, each: u16, stl: u16) -> u32
    requires { (0 < unit) × (each ≤ 27) }
    ensures { (result ≡ per_n unit each stl) × (result ≤ 1769472) }
{
    if stl % unit != 0 {
        return 0;
    }
    u32::from(stl / unit) * u32::from(each)
}

#[tactic(auto, using(octets::proofs::Deciding::tests), unfolding(crate::specs::Sizes::equal_size))]
fn equal(tpl: u8, stl: u16) -> u32
    ensures { (result ≡ equal_size (tpl / 4 % 8) (tpl % 4) stl) × (result ≤ 1769472) }
{
    let tpl = u16::from(tpl);
    match tpl / 4 % 8 {
        0 => per_n(3, each_a(tpl), stl),
        1 => per_n(12, each_b(tpl), stl),
        _ => 0,
    }
}

// Not an Option: 0 units is what `units_by` says of a stream without a size too.
#[tactic(auto, using(octets::proofs::Deciding::tests), unfolding(crate::specs::Sizes::size_by))]
fn size(tpl: u8, stl: u16) -> u32
    ensures { (result ≡ size_by tpl stl) × (result ≤ 1769472) }
{
    if tpl / 32 % 2 != 0 {
        return equal(tpl, stl);
    }
    if tpl / 8 % 2 != 0 {
        return 0;
    }
    unequal(tpl % 8, stl)
}

// The capacity units that a stream takes: none with STL 0, and 0 where it has no size.
#[tactic(auto, using(octets::proofs::Deciding::tests), unfolding(crate::specs::Sizes::units_by))]
pub fn units(tpl: u8, stl: u16) -> u32
    ensures { (result ≡ units_by tpl stl) × (result ≤ 1769472) }
{
    if stl == 0 {
        return 0;
    }
    size(tpl, stl)
}

// The same for equal protection alone, from the half of a stream's word that has TPL and STL; 0 with unequal protection. Nothing in it branches or
// looks into a table, so that a loop over it is done eight streams at a time.
pub fn equal_units(half: u16) -> u16
    ensures { (result ≡ equal_in half) × (result ≤ 4092) }
{
    let stl = half % 1024;
    let tpl = half / 1024;
    let n = stl / 3;
    let a = n * each_a(tpl);
    let b = n / 4 * each_b(tpl);
    if (half / 4096 == 8) & (stl % 3 == 0) {
        return a;
    }
    if (half / 4096 == 9) & ((stl % 3 == 0) & (n % 4 == 0)) {
        return b;
    }
    0
}
