// The sum of annex D by a ring of 256 bytes: the fast one, with no table. `sum::sum` is the small one; both have one contract.
#![tactic(auto)]

ghost use Rattle.std.specs.Prelude.{◌≡◌, ℕ, ◌+◌, ◌-◌, ◌%◌, ◌≤◌, ◌<◌, List, length, take, drop};
ghost use Rattle.std.specs.Int.Bits.{bit_xor};
ghost use Rattle.linear.proofs.Linear.{xors};
ghost use Rattle.sum.specs.Sum.{Register, word, feed, after, sum_of};
ghost use Rattle.stretch.specs.Stretch.{after_rows};
ghost use Rattle.ring.specs.Ring.{owed, turned, Same, Turn, Run};

// A function of its own, since the range of its result stands in its type, and that of what an array holds does not.
fn mixed(a: u8, b: u8, c: u8, d: u8) -> u8
    ensures { result ≡ bit_xor (bit_xor a (bit_xor b c)) d }
{
    a ^ (b ^ c) ^ d
}

// The register with 128 stages for each of its own: G(x)^128 = G(x^128), so a byte that is fed back is added to those 64, 176 and
// 256 places on. The ring w has the last 256 that were, the first of them at k: this one takes its place.
fn one(w: &mut [u8; 256], k: usize, x: usize, y: usize, b: u8)
    requires { (k < 256) × (x ≡ (k + 80) % 256) × (y ≡ (k + 192) % 256) }
    ensures { (r : Register) → Same r (owed (turned w.old k)) → Same (feed r b) (owed (turned w.new (k + 1))) }
{
    w[k] = mixed(w[k], w[x], w[y], b);
}

// A run of n places, with no remainder of a place to be taken, so that a compiler makes vectors of it.
fn run(w: &mut [u8; 256], bytes: &[u8; 256], from: usize, n: usize, tap: usize, other: usize)
    requires { Run from n tap other }
    ensures { (u : List ℕ) → Turn u bytes.now w.old from → Turn u bytes.now w.new (from + n) }
{
    for k in 0..n {
        one(w, from + k, tap + k, other + k, bytes[from + k]);
    }
}

// 256 bytes, once round.
fn round(w: &mut [u8; 256], bytes: &[u8; 256])
    ensures { (r : Register) → Same r (owed w.old) → Same (after r bytes.now) (owed w.new) }
{
    run(w, bytes, 0, 64, 80, 192);
    run(w, bytes, 64, 112, 144, 0);
    run(w, bytes, 176, 80, 0, 112);
}

fn rounds(w: &mut [u8; 256], rows: &[[u8; 256]])
    ensures { (r : Register) → Same r (owed w.old) → Same (after_rows r rows.now) (owed w.new) }
{
    for row in rows {
        round(w, row);
    }
}

fn add(w: &mut [u8; 256], bytes: &[u8])
    requires { length bytes.now ≤ 256 }
    ensures { w.new ≡ xors w.old bytes.now }
{
    for (k, b) in bytes.iter().enumerate() {
        w[k] ^= *b;
    }
}

// The register's word after the last 256 bytes, with what is owed added to them.
fn closed(w: &[u8; 256], last: &[u8; 256]) -> u16
    ensures { (q : Register) → Same q (owed w.now) → result ≡ word (after q last.now) }
{
    let mut v = *w;
    add(&mut v, &w[80..]);
    add(&mut v, &w[192..]);
    add(&mut v, last);
    stretch::fed(0, &v)
}

// The register's word after rows of 256 bytes: at the start it is added to two bytes.
fn long(start: u16, rows: &[[u8; 256]], last: &[u8; 256]) -> u16
    ensures { (s : Register) → start ≡ word s → result ≡ word (after (after_rows s rows.now) last.now) }
{
    let mut w = [0u8; 256];
    w[..2].copy_from_slice(&start.to_be_bytes());
    rounds(&mut w, rows);
    closed(&w, last)
}

// The sum of the bytes lent, the odd ones first. Under two rounds the ring gains nothing. Parts are handed on here and in `sum`: the slice as it
// came would be copied at the entry of each call.
fn many(bytes: &[u8]) -> u16
    ensures { result ≡ sum_of bytes.now }
{
    let (odd, rows) = bytes.as_rchunks();
    match rows.split_last() {
        Some((last, rows)) if !rows.is_empty() => !long(stretch::fed(0xffff, odd), rows, last),
        _ => !stretch::fed(0xffff, &bytes[..bytes.len()]),
    }
}

// The sum of the bytes lent, of every length.
pub fn sum(bytes: &[u8]) -> u16
    ensures { result ≡ sum_of bytes.now }
{
    let len = bytes.len();
    if len < 48 {
        return !stretch::few(0xffff, &bytes[..len]);
    }
    many(&bytes[..len])
}

// The sum of the bytes from a up to e, as many of them as there are. `many` is called here too, so that it stays apart from `sum`, whose
// short way then needs no frame.
pub fn sum_between(bytes: &[u8], a: usize, e: usize) -> u16
    ensures { result ≡ sum_of (take (e - a) (drop a bytes.now)) }
{
    match bytes.get(a..e.min(bytes.len())) {
        None => 0,
        Some(part) if part.len() < 48 => sum(part),
        Some(part) => many(part),
    }
}
