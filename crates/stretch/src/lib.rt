// The register's word after more bytes, eight to a turn and with no table: for short sums, and for the ends of long ones.
#![tactic(auto)]

ghost use Rattle.std.specs.Prelude.{◌≡◌, length};
ghost use Rattle.sum.specs.Sum.{Register, after, word, load};
ghost use Rattle.stretch.specs.Stretch.{after4, after8, after_rows, blank, Stands};

// Eight bytes as one word, high byte first.
fn whole(w: &[u8; 8]) -> u64
    ensures { (s : Register) → after8 s result ≡ after s w.now }
{
    u64::from_be_bytes(*w)
}

// Four bytes as half a word.
fn half(h: &[u8; 4]) -> u32
    ensures { (s : Register) → after4 s result ≡ after s h.now }
{
    u32::from_be_bytes(*h)
}

// The register's word after a word, from a blank one: the word, as one polynomial p, divided by G = x^16 (1 + y).
// The quotient q is p (1 + y) (1 + y^2) (1 + y^4) (1 + y^8), whatever falls below x^0 left out; the remainder is returned.
fn divide(p: u64) -> u16
    ensures { result ≡ word (after8 blank p) }
{
    let t = p ^ (p >> 4) ^ ((p >> 11) ^ (p >> 16));
    let u = t ^ (t >> 8) ^ ((t >> 22) ^ (t >> 32));
    let v = u ^ (u >> 16) ^ (u >> 44);
    let q = v ^ (v >> 32);
    ((q ^ (q << 5) ^ (q << 12)) % 65536) as u16
}

// The register's word after a word more, to whose first two bytes it is added.
fn word_on(crc: u16, z: u64) -> u16
    ensures { (s : Register) → crc ≡ word s → result ≡ word (after8 s z) }
{
    divide((u64::from(crc) << 48) ^ z)
}

// The same after half a word more.
fn half_on(crc: u16, z: u32) -> u16
    ensures { (s : Register) → crc ≡ word s → result ≡ word (after4 s z) }
{
    divide((u64::from(crc) << 16) ^ u64::from(z))
}

// The register's word after words more, one to a turn.
fn words_on(start: u16, words: &[[u8; 8]]) -> u16
    ensures { (s : Register) → start ≡ word s → result ≡ word (after_rows s words.now) }
{
    let mut crc = start;
    for w in words {
        crc = word_on(crc, whole(w));
    }
    crc
}

// The register with sixteen stages for each of its own: G(x)^16 = G(x^16), so what is fed back goes 8, 22 and 32 bytes on, and
// a word to a turn is shifted at once. What it holds is still to be added to the next 32 bytes.
#[derive(Clone, Copy)]
struct Stretched {
    a: u64,
    b: u64,
    c: u64,
    d: u64,
}

impl Stretched {
    fn begin(crc: u16) -> Stretched
        ensures { (s : Register) → crc ≡ word s → Stands s result }
    {
        Stretched {
            a: u64::from(crc) << 48,
            b: 0,
            c: 0,
            d: 0,
        }
    }

    fn turn(self, w: &[u8; 8]) -> Stretched
        ensures { (q : Register) → Stands q self → Stands (after q w.now) result }
    {
        let back = self.a ^ whole(w);
        Stretched {
            a: self.b ^ back,
            b: self.c ^ (back >> 48),
            c: self.d ^ (back << 16),
            d: back,
        }
    }

    // The last 32 bytes, with what is to be added to them.
    fn close(self, last: &[[u8; 8]; 4]) -> u16
        ensures { (q : Register) → Stands q self → result ≡ word (after_rows q last.now) }
    {
        let first = divide(self.a ^ whole(&last[0]));
        let second = word_on(first, self.b ^ whole(&last[1]));
        let third = word_on(second, self.c ^ whole(&last[2]));
        word_on(third, self.d ^ whole(&last[3]))
    }
}

// The register's word after words more and the last four, by the stretched one.
fn turns(start: u16, words: &[[u8; 8]], last: &[[u8; 8]; 4]) -> u16
    ensures { (s : Register) → start ≡ word s → result ≡ word (after_rows (after_rows s words.now) last.now) }
{
    let mut s = Stretched::begin(start);
    for w in words {
        s = s.turn(w);
    }
    s.close(last)
}

// The register's word after words more, the quickest for some hundred bytes.
fn eights(start: u16, words: &[[u8; 8]]) -> u16
    ensures { (s : Register) → start ≡ word s → result ≡ word (after_rows s words.now) }
{
    match words.split_last_chunk() {
        Some((front, last)) if front.len() >= 2 => turns(start, front, last),
        _ => words_on(start, words),
    }
}

// The register's word after bytes more, one by one.
fn ones(start: u16, bytes: &[u8]) -> u16
    ensures { (s : Register) → start ≡ word s → result ≡ word (after s bytes.now) }
{
    let mut crc = start;
    for b in bytes {
        crc = sum::step(crc, *b);
    }
    crc
}

// The same, half a word first: for fewer bytes than a word has.
fn rest(crc: u16, bytes: &[u8]) -> u16
    ensures { (s : Register) → crc ≡ word s → result ≡ word (after s bytes.now) }
{
    match bytes.split_first_chunk() {
        Some((first, rest)) => ones(half_on(crc, half(first)), rest),
        None => ones(crc, bytes),
    }
}

// The register's word after the bytes lent, of every length: the quickest for some ten bytes. Apart from `fed`, since the stretched register takes
// a frame, which short sums do without.
pub fn few(start: u16, bytes: &[u8]) -> u16
    ensures { (s : Register) → start ≡ word s → result ≡ word (after s bytes.now) }
{
    if bytes.len() < 4 {
        return ones(start, bytes);
    }
    let (words, others) = bytes.as_chunks();
    rest(words_on(start, words), others)
}

// The same, the quickest for some hundred bytes.
pub fn fed(start: u16, bytes: &[u8]) -> u16
    ensures { (s : Register) → start ≡ word s → result ≡ word (after s bytes.now) }
{
    let (words, others) = bytes.as_chunks();
    rest(eights(start, words), others)
}
