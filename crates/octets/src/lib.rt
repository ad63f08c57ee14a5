// Numbers in bytes, high byte first: readers that give 0 for what lies beyond the end.
#![tactic(auto)]

ghost use Rattle.std.specs.Prelude.{◌≡◌, ℕ, ◌+◌, ◌<◌, get_or, drop};
ghost use Rattle.octets.specs.Words.{two_at, word_at, eight_at};

// The byte at a place.
fn octet(bytes: &[u8], at: usize) -> u8
    ensures { result ≡ get_or bytes.now at 0 }
{
    bytes.get(at).copied().unwrap_or(0)
}

pub fn byte(bytes: &[u8], at: usize) -> usize
    ensures { (result ≡ get_or bytes.now at 0) × (result < 256) }
{
    usize::from(octet(bytes, at))
}

// The bytes from a place on.
fn rest(bytes: &[u8], at: usize) -> &[u8]
    ensures { result.now ≡ drop at bytes.now }
{
    bytes.get(at..).unwrap_or(&[])
}

// N bytes from a place on: at once where all are there.
fn row<const N: usize>(bytes: &[u8], at: usize) -> [u8; N]
    ensures { (k : ℕ) → k < N → get_or result k 0 ≡ get_or bytes.now (at + k) 0 }
{
    let rest = rest(bytes, at);
    if let Some(row) = rest.first_chunk() {
        return *row;
    }
    let mut row = [0; N];
    for (k, b) in row.iter_mut().enumerate() {
        *b = octet(rest, k);
    }
    row
}

pub fn two(bytes: &[u8], at: usize) -> usize
    ensures { (result ≡ two_at bytes.now at) × (result < 65536) }
{
    usize::from(u16::from_be_bytes(row(bytes, at)))
}

// The word that begins at a place.
pub fn word(bytes: &[u8], at: usize) -> usize
    ensures { (result ≡ word_at bytes.now at) × (result < 4294967296) }
{
    u32::from_be_bytes(row(bytes, at)) as usize
}

pub fn eight(bytes: &[u8], at: usize) -> usize
    ensures { result ≡ eight_at bytes.now at }
{
    usize::from_be_bytes(row(bytes, at))
}
