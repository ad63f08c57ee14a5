// The field of 256 elements of clause 8.6: bytes as polynomials modulo x^8 + x^7 + x^2 + x + 1.
#![tactic(auto)]

ghost use Rattle.std.specs.Prelude.{◌≡◌};
ghost use Rattle.field.specs.Field.{bit, scale, twice, times, power};
ghost use Rattle.field.specs.FieldClauses.{entry_of};

// The 255 powers of alpha, each the previous times alpha: the next would be the first again. A table, since its rule is shown over the whole of it (`Powers.powers_at`).
const POWERS: [u8; 255] = [
    1, 2, 4, 8, 16, 32, 64, 128, 135, 137, 149, 173, 221, 61, 122, 244, 111, 222, 59, 118, 236, 95,
    190, 251, 113, 226, 67, 134, 139, 145, 165, 205, 29, 58, 116, 232, 87, 174, 219, 49, 98, 196,
    15, 30, 60, 120, 240, 103, 206, 27, 54, 108, 216, 55, 110, 220, 63, 126, 252, 127, 254, 123,
    246, 107, 214, 43, 86, 172, 223, 57, 114, 228, 79, 158, 187, 241, 101, 202, 19, 38, 76, 152,
    183, 233, 85, 170, 211, 33, 66, 132, 143, 153, 181, 237, 93, 186, 243, 97, 194, 3, 6, 12, 24,
    48, 96, 192, 7, 14, 28, 56, 112, 224, 71, 142, 155, 177, 229, 77, 154, 179, 225, 69, 138, 147,
    161, 197, 13, 26, 52, 104, 208, 39, 78, 156, 191, 249, 117, 234, 83, 166, 203, 17, 34, 68, 136,
    151, 169, 213, 45, 90, 180, 239, 89, 178, 227, 65, 130, 131, 129, 133, 141, 157, 189, 253, 125,
    250, 115, 230, 75, 150, 171, 209, 37, 74, 148, 175, 217, 53, 106, 212, 47, 94, 188, 255, 121,
    242, 99, 198, 11, 22, 44, 88, 176, 231, 73, 146, 163, 193, 5, 10, 20, 40, 80, 160, 199, 9, 18,
    36, 72, 144, 167, 201, 21, 42, 84, 168, 215, 41, 82, 164, 207, 25, 50, 100, 200, 23, 46, 92,
    184, 247, 105, 210, 35, 70, 140, 159, 185, 245, 109, 218, 51, 102, 204, 31, 62, 124, 248, 119,
    238, 91, 182, 235, 81, 162, 195,
];

// The table goes round.
fn entry(table: [u8; 255], n: usize) -> u8
    ensures { result ≡ entry_of table n }
{
    table[n % 255]
}

pub fn power(n: usize) -> u8
    ensures { result ≡ power n }
{
    entry(POWERS, n)
}

// a times alpha.
fn twice(a: u8) -> u8
    ensures { result ≡ twice a }
{
    if a < 128 { a << 1 } else { (a << 1) ^ 0x87 }
}

// a, where the last bit of d is set, else 0.
fn part(a: u8, d: u8) -> u8
    ensures { result ≡ scale (bit d 0) a }
{
    if d % 2 == 1 { a } else { 0 }
}

pub fn times(a: u8, b: u8) -> u8
    ensures { result ≡ times a b }
{
    let mut t: u8 = 0;
    for k in (0..8u8).rev() {
        t = twice(t) ^ part(a, b >> k);
    }
    t
}
