// Numbers into bytes, high byte first, and bytes as they are: each is stored only where there is room for all of it.
#![tactic(auto)]

ghost use Rattle.std.specs.Prelude.{◌≡◌};
ghost use Rattle.octets.specs.Words.{split, bytes2, bytes4, bytes8};
ghost use Rattle.octets.specs.Stores.{put};

pub fn put2(out: &mut [u8], at: usize, n: u16)
    ensures { out.new ≡ put out.old at (split bytes2 n) }
{
    put_bytes(out, at, &u16::to_be_bytes(n));
}

// The low four bytes of a number.
pub fn put4(out: &mut [u8], at: usize, n: usize)
    ensures { out.new ≡ put out.old at (split bytes4 n) }
{
    put_bytes(out, at, &usize::to_be_bytes(n)[4..]);
}

pub fn put8(out: &mut [u8], at: usize, n: usize)
    ensures { out.new ≡ put out.old at (split bytes8 n) }
{
    put_bytes(out, at, &usize::to_be_bytes(n));
}

// One by one and not by `copy_from_slice`, for which an archive for C would want `memmove`.
pub fn put_bytes(out: &mut [u8], at: usize, bytes: &[u8])
    ensures { out.new ≡ put out.old at bytes.now }
{
    if at <= out.len() && bytes.len() <= out.len() - at {
        for (k, b) in bytes.iter().enumerate() {
            out[at + k] = *b;
        }
    }
}
