// The final-stage profile of a frame: what it refuses. The stream table is taken apart into tables of 64 numbers, and each loop over them does one thing, so
// that it is done many streams at a time. Sub-channels that lie in order cannot meet; only where they do not is a map of the units made.
#![tactic(auto)]

ghost use Rattle.std.specs.Prelude.{false, List, ◌≡◌, ℕ, ◌≤◌, ◌<◌, eqb, ltb, get_or, length, MatchResult};
ghost use Rattle.octets.specs.Choice.{pick};
ghost use Rattle.frame.specs.Rules.{first};
ghost use Rattle.refusals.specs.Refusals.{refusal_number, outcome_number};
ghost use Rattle.capacity.specs.Sizes.{units_in, equal_in};
ghost use Rattle.places.specs.declared.Place.{Place};
ghost use Rattle.places.specs.Places.{places_to, some, some_pair, same_scid, beyond, meets, place_rules, profile_of};
ghost use Rattle.profile.specs.ProfileClauses.{laid_to, end_by, end_at, EndsBy, Tallied, Adds, Noted};

use refusals::Refusal;

// The first n streams of a table of 64, by parts, so that a loop over one of them takes many streams at a time (an array of structs would part that):
// SCID and SAD, TPL and STL, and where each one's units end. Not an Option: 0 is what `end_by` says of no units. No two have one SCID.
#[derive(Clone, Copy)]
struct Streams {
    highs: [u16; 64],
    lows: [u16; 64],
    ends: [u16; 64],
    n: usize,
    ghost few: { n ≤ 64 },
    ghost ended: { EndsBy units_in highs lows ends n },
    ghost differ: { some_pair same_scid (laid_to highs lows n) ≡ false },
}

// What is noted of the streams so far: one without a size, one beyond the units, one out of order (it takes no units, or does not begin at or behind the
// end of the one before it); and where the last one ends.
#[derive(Clone, Copy)]
struct Notes {
    sizeless: bool,
    beyond: bool,
    crossed: bool,
    reach: u16,
}

impl Notes {
    // One stream more.
    fn with(self, sad: u16, stl: u16, end: u16) -> Notes
        ensures { (p : Place) → sad ≡ p.sad → stl ≡ p.stl → end ≡ end_at p → Adds self p result }
    {
        Notes {
            sizeless: self.sizeless | ((0 < stl) & (end == 0)),
            beyond: self.beyond | (864 < end),
            crossed: self.crossed | ((end == 0) | (sad < self.reach)),
            reach: end,
        }
    }
}

// Where a sub-channel of so many units ends, 0 if it has none.
fn end_of(sad: u16, units: u16) -> u16
    requires { (sad < 1024) × (units ≤ 4092) }
    ensures { result ≡ end_by sad units }
{
    if units == 0 { 0 } else { sad + units }
}

// A mark for each SCID of the first n streams.
fn marked(highs: &[u16; 64], n: usize) -> [bool; 64]
    requires { n ≤ 64 }
    ensures { (lows : List ℕ) → Tallied result n (laid_to highs.now lows n) }
{
    let mut marks = [false; 64];
    for high in &highs[..n] {
        marks[usize::from(*high / 1024 % 64)] = true;
    }
    marks
}

// How many different SCIDs there are.
fn scids(highs: &[u16; 64], n: usize) -> usize
    requires { n ≤ 64 }
    ensures { (lows : List ℕ) → ltb result n ≡ some_pair same_scid (laid_to highs.now lows n) }
{
    marked(highs, n).iter().map(|mark| usize::from(*mark)).sum()
}

// Whether some of these streams carries bytes and has unequal protection. Not `any`, which stops at the first: all are looked at, many at a time.
fn some_unequal(lows: &[u16]) -> bool
    ensures { result ≡ false → (k : ℕ) → k < length lows.now → equal_in (get_or lows.now k 0) ≡ units_in (get_or lows.now k 0) }
{
    let mut found = false;
    for low in lows {
        found |= (*low < 32768) & (0 < *low % 1024);
    }
    found
}

fn units_of(low: u16) -> u16
    ensures { (result ≡ units_in low) × (result ≤ 4092) }
{
    if low < 32768 {
        capacity::units((low / 1024) as u8, low % 1024) as u16
    } else {
        capacity::equal_units(low)
    }
}

// Where the streams' units end, with their number by a half that has TPL and STL.
fn ends_by<F: Fn(u16) -> u16>(highs: &[u16; 64], lows: &[u16; 64], units: F) -> [u16; 64]
    ghost size: { ℕ → ℕ }
    requires callable { F.IsAlwaysCallable units }
    requires sized { (low r : ℕ) → F.post units low r → (r ≡ size low) × (r ≤ 4092) }
    ensures { EndsBy size highs.now lows.now result 64 }
{
    let mut ends = [0u16; 64];
    for i in 0..64 {
        ends[i] = end_of(highs[i] % 1024, units(lows[i]));
    }
    ends
}

fn ends_of(highs: &[u16; 64], lows: &[u16; 64], n: usize) -> [u16; 64]
    requires { n ≤ 64 }
    ensures { EndsBy units_in highs.now lows.now result n }
{
    if some_unequal(&lows[..n]) {
        ends_by(highs, lows, units_of)
    } else {
        ends_by(highs, lows, capacity::equal_units)
    }
}

// Where the units so far end: this stream's, or where it has none those before it.
fn reached(reach: u16, end: u16) -> u16
    ensures { result ≡ pick (eqb end 0) reach end }
{
    if end == 0 { reach } else { end }
}

impl Streams {
    ghost use Rattle.profile.specs.StreamClauses.{laid};

    // Both halves of a word in one turn, so that its four bytes are read together. Where two have one SCID no end is worked out.
    fn of(frame: &[u8], n: usize) -> Result<Streams, Refusal>
        requires { n ≤ 64 }
        ensures { MatchResult result (λ s. (s.n ≡ n) × (laid s ≡ places_to frame.now n)) (λ why. refusal_number why ≡ first (place_rules (places_to frame.now n))) }
    {
        let mut highs = [0u16; 64];
        let mut lows = [0u16; 64];
        for i in 0..64 {
            highs[i] = octets::two(frame, 8 + 4 * i) as u16;
            lows[i] = octets::two(frame, 10 + 4 * i) as u16;
        }
        if scids(&highs, n) < n {
            return Err(Refusal::EqualScids);
        }
        let ends = ends_of(&highs, &lows, n);
        Ok(Streams {
            highs,
            lows,
            ends,
            n,
        })
    }

    fn notes(&self) -> Notes
        ensures { Noted (laid self.now) result }
    {
        let mut notes = Notes {
            sizeless: false,
            beyond: false,
            crossed: false,
            reach: 0,
        };
        for i in 0..self.n {
            notes = notes.with(self.highs[i] % 1024, self.lows[i] % 1024, self.ends[i]);
        }
        notes
    }

    // Whether some stream begins before the last one before it that has units ends.
    fn some_cross(&self) -> bool
        ensures { result ≡ false → some_pair meets (laid self.now) ≡ false }
    {
        let mut found = false;
        let mut reach = 0u16;
        for i in 0..self.n {
            found |= (0 < self.ends[i]) & (self.highs[i] % 1024 < reach);
            reach = reached(reach, self.ends[i]);
        }
        found
    }

    // Whether some stream takes no units, or does not end where the one before it begins or earlier. If none does, the table is in the other order.
    fn some_rise(&self) -> bool
        ensures { result ≡ false → some_pair meets (laid self.now) ≡ false }
    {
        let mut found = false;
        let mut begun = 65535u16;
        for i in 0..self.n {
            found |= (self.ends[i] == 0) | (begun < self.ends[i]);
            begun = self.highs[i] % 1024;
        }
        found
    }

    // Whether two streams have a unit together, by a map of the units; none lies beyond it.
    fn some_meet(&self) -> bool
        requires { some beyond (laid self.now) ≡ false }
        ensures { result ≡ some_pair meets (laid self.now) }
    {
        let mut map = [false; 864];
        let mut found = false;
        for i in 0..self.n {
            for u in usize::from(self.highs[i] % 1024)..usize::from(self.ends[i]) {
                found |= map[u];
                map[u] = true;
            }
        }
        found
    }

    // The same, by the order where it answers: the other order, or in order but for streams without units; else by the map.
    fn some_overlap(&self) -> bool
        requires { some beyond (laid self.now) ≡ false }
        ensures { result ≡ some_pair meets (laid self.now) }
    {
        if self.some_rise() && self.some_cross() {
            self.some_meet()
        } else {
            false
        }
    }

    // What is refused of the streams, whose SCIDs differ.
    fn judge(&self) -> Result<(), Refusal>
        ensures { outcome_number result ≡ first (place_rules (laid self.now)) }
    {
        let notes = self.notes();
        if notes.sizeless {
            return Err(Refusal::NoSize);
        }
        if notes.beyond {
            return Err(Refusal::Beyond);
        }
        if notes.crossed && self.some_overlap() {
            return Err(Refusal::Overlap);
        }
        Ok(())
    }
}

// Reading's refusal, then 30 to 33. The part of 6,144 bytes is all of them: its length is known as it is built.
pub fn judge(frame: &[u8]) -> Result<(), Refusal>
    ensures { outcome_number result ≡ profile_of frame.now }
{
    judging::judge(frame)?;
    let fc = fields::fc(frame);
    Streams::of(&frame[..6144], usize::from(fc.nst))?.judge()
}
