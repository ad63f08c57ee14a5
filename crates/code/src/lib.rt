// The Reed-Solomon code of clause 8.6, over the number of check bytes.
#![tactic(auto)]

ghost use Rattle.std.specs.Prelude.{Bool, List, Result, ◌≡◌, ℕ, ◌<◌, ◌≤◌, length, replicate};
ghost use Rattle.std.specs.Int.{bytes_high_first};
ghost use Rattle.field.specs.Field.{bit, scale};
ghost use Rattle.code.specs.Code.{value_at, is_clean, divide, remainder, check_bytes};
ghost use Rattle.code.specs.CodeClauses.{by_bits, Multiplies};
ghost use Rattle.code.specs.CodeAnswers.{Checks, Tests};
ghost use Rattle.refusals.specs.Refusals.{outcome_number};

use refusals::Refusal;

// The coefficients of a generator below the first, a byte each, the highest power's first, times 1, alpha, alpha^2, .. alpha^7: with five roots, and with fourteen.
const FIVE: [u128; 8] = [
    0x1c2531a406,
    0x384a62cf0c,
    0x7094c41918,
    0xe0af0f3230,
    0x47d91e6460,
    0x8e353cc8c0,
    0x9b6a781707,
    0xb1d4f02e0e,
];

const FOURTEEN: [u128; 8] = [
    0xb71b5f7243cbf953bed63d317266,
    0xe936bee4861175a6fb2b7a62e4cc,
    0x556cfb4f8b22eacb7156f4c44f1f,
    0xaad8719e91445311e2ac6f0f9e3e,
    0xd337e2bba588a62243dfde1ebb7c,
    0x216e43f1cd97cb4486393b3cf1f8,
    0x42dc86651da911888b7276786577,
    0x843f8bca3ad5229791e4ecf0caee,
];

// The row's value at z.
fn value_at(z: u8, row: &[u8]) -> u8
    ensures { result ≡ value_at z row.now }
{
    row.iter().fold(0, |v, b| field::times(v, z) ^ *b)
}

// Whether the row's value is zero at each of the n roots.
fn is_clean(row: &[u8], n: usize) -> bool
    requires { n ≤ 14 }
    ensures { result ≡ is_clean n row.now }
{
    for i in 0..n {
        if value_at(field::power(120 + i), row) != 0 {
            return false;
        }
    }
    true
}

// c, where the bit of d of weight 2^k is set, else 0: two products of 64 bits, since of eight choices, and of eight wider products, the compiler makes
// vectors, which take twice as long.
fn part(c: u128, d: u8, k: usize) -> u128
    requires { k < 8 }
    ensures { result ≡ scale (bit d k) c }
{
    let bit = u64::from((d >> k) % 2);
    let high = (c / 18446744073709551616) as u64 * bit;
    let low = (c % 18446744073709551616) as u64 * bit;
    u128::from(high) * 18446744073709551616 + u128::from(low)
}

// f times each coefficient: the exclusive or of the multiples by the bits of f. R is here for time alone: with an instance for each code the compiler knows
// its multiples, and that those of five bytes have no high half.
fn multiple<const R: usize>(multiples: &[u128; 8], f: u8) -> u128
    ensures { result ≡ by_bits multiples.now 8 f }
{
    let mut sum = 0;
    for (k, m) in multiples.iter().enumerate() {
        sum ^= part(*m, f, k);
    }
    sum
}

// One coefficient more, of long division by the generator. The check bytes as they come about are the R lowest of the number.
fn divide<const R: usize>(multiples: &[u128; 8], rest: u128, b: u8) -> u128
    requires { (0 < R) × (R ≤ 16) }
    ensures { (g : List ℕ) → length g ≡ R → Multiplies multiples.now g → bytes_high_first R result ≡ divide g (bytes_high_first R rest) b }
{
    let f = b ^ ((rest >> (8 * R - 8)) % 256) as u8;
    (rest << 8) ^ multiple::<R>(multiples, f)
}

fn remainder<const R: usize>(multiples: &[u128; 8], info: &[u8]) -> u128
    requires { (0 < R) × (R ≤ 16) }
    ensures { (g : List ℕ) → length g ≡ R → Multiplies multiples.now g → bytes_high_first R result ≡ remainder g (replicate R 0) info.now }
{
    let mut rest = 0;
    for b in info {
        rest = divide::<R>(multiples, rest, *b);
    }
    rest
}

fn put_remainder<const R: usize>(multiples: &[u128; 8], info: &[u8], out: &mut [u8])
    requires { (0 < R) × (R ≤ 16) × (length out.old ≡ R) }
    ensures { (g : List ℕ) → length g ≡ R → Multiplies multiples.now g → out.new ≡ remainder g (replicate R 0) info.now }
{
    let bytes = remainder::<R>(multiples, info).to_be_bytes();
    out.copy_from_slice(&bytes[16 - R..]);
}

// The check bytes of the information, as many as there is room for.
pub fn check_bytes(info: &[u8], out: &mut [u8]) -> Result<(), Refusal>
    ensures { Checks info.now out.old out.new (outcome_number result) }
{
    match (info.len(), out.len()) {
        (235, 5) => put_remainder::<5>(&FIVE, info, out),
        (226, 14) => put_remainder::<14>(&FOURTEEN, info, out),
        _ => return Err(Refusal::Length),
    }
    Ok(())
}

// Whether a row with so many check bytes is clean.
pub fn test_row(row: &[u8], check: usize) -> Result<bool, Refusal>
    ensures { Tests row.now check result }
{
    match (row.len(), check) {
        (240, 5 | 14) => Ok(is_clean(row, check)),
        _ => Err(Refusal::Length),
    }
}
