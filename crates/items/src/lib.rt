// One pass over the tag items of an EDI packet: where the value of management and of each stream lies.
#![tactic(auto)]

ghost use Rattle.std.specs.Prelude.{◌≡◌, ◌+◌, ◌≤◌, max, length, take, drop};
ghost use Rattle.items.specs.TagItems.{part_of, number_by};
ghost use Rattle.items.specs.PassNotes.{met_again, span_of, bad_by, LooksAt, Passed};

use frame::Span;
use refusals::Refusal;

// A look at a sound item: which part it is, and its value's length.
#[derive(Clone, Copy)]
struct Seen {
    part: usize,
    len: usize,
}

// How often the item of a part was met, and, of one met once, where its value lies.
#[derive(Clone, Copy)]
pub enum Met {
    Never,
    Once(Span),
    Several,
}

impl Met {
    // Once more, with the value there.
    fn again(self, there: Span) -> Met
        ensures { result ≡ met_again self there }
    {
        match self {
            Met::Never => Met::Once(there),
            _ => Met::Several,
        }
    }

    // Where the value lies; nothing, at the start, where it was not met once. No Option: `span_of`, by which all places are stated, says 0 and 0 there.
    pub fn span(self) -> Span
        ensures { result ≡ span_of self }
    {
        match self {
            Met::Once(span) => span,
            _ => Span { start: 0, len: 0 },
        }
    }
}

// The whole pass: the parts are management, streams 1 to 64 and all others; and the highest stream number.
#[derive(Clone, Copy)]
pub struct Notes {
    pub highest: usize,
    pub met: [Met; 66],
}

// The names: "deti", and "est" with the number of a stream from 1 to 64.
const DETI: usize = 0x64657469;

const EST1: usize = 0x65737401;

const EST64: usize = 0x65737440;

// Not an enum: a part's number is where it stands among the notes.
#[tactic(auto, using(crate::proofs::PartNames::parts))]
fn part(name: usize) -> usize
    ensures { (result ≡ part_of name) × (result ≤ 65) }
{
    match name {
        DETI => 0,
        EST1..=EST64 => name - EST1 + 1,
        _ => 65,
    }
}

#[tactic(auto, using(octets::proofs::Deciding::tests), unfolding(crate::specs::PassNotes::bad_by))]
fn bad(bits: usize, left: usize, part: usize) -> bool
    ensures { result ≡ bad_by bits left part }
{
    bits % 8 != 0
        || left < bits / 8
        || matches!(part, 1..=64) && (bits < 24 || (bits - 24) % 64 != 0)
}

fn look(rest: &[u8]) -> Result<Seen, Refusal>
    requires { 8 ≤ length rest.now }
    ensures { LooksAt rest.now result }
{
    let part = part(octets::word(rest, 0));
    let bits = octets::word(rest, 4);
    if bad(bits, rest.len() - 8, part) {
        return Err(Refusal::BadItem);
    }
    Ok(Seen {
        part,
        len: bits / 8,
    })
}

#[tactic(auto, using(octets::proofs::Deciding::tests), unfolding(crate::specs::TagItems::number_by))]
fn higher(highest: usize, part: usize) -> usize
    ensures { result ≡ max highest (number_by part) }
{
    if part > 64 {
        highest
    } else {
        highest.max(part)
    }
}

// What is noted of a packet none of whose items is bad. No `for`: an item's own length says where the next one begins.
pub fn pass(packet: &[u8]) -> Result<Notes, Refusal>
    ensures { Passed packet.now result }
{
    let mut met = [Met::Never; 66];
    let mut highest = 0;
    let mut at = 0;
    while packet.len() - at >= 8 {
        let seen = look(&packet[at..])?;
        let start = at + 8;
        let here = Span {
            start,
            len: seen.len,
        };
        met[seen.part] = met[seen.part].again(here);
        highest = higher(highest, seen.part);
        at = start + seen.len;
    }
    Ok(Notes { highest, met })
}

// The bytes of a value by its place and length, or what there is of them.
pub fn value(bytes: &[u8], span: Span) -> &[u8]
    ensures { result.now ≡ take span.len (drop span.start bytes.now) }
{
    let rest = &bytes[span.start.min(bytes.len())..];
    &rest[..span.len.min(rest.len())]
}
