// The network frame regenerated from the tag items of an EDI packet.
#![tactic(auto)]

ghost use Rattle.std.specs.Prelude.{◌≡◌, ◌+◌, ◌*◌, ◌<◌, ◌≤◌, false, length, take, drop};
ghost use Rattle.octets.specs.Stores.{put};
ghost use Rattle.refusals.specs.Refusals.{refusal_number, outcome_number};
ghost use Rattle.frame.specs.Frame.{stl_total};
ghost use Rattle.frame.specs.Rules.{first};
ghost use Rattle.frame.specs.Answers.{table_by};
ghost use Rattle.frame.specs.Writing.{Writes};
ghost use Rattle.items.specs.TagItems.{items_of, value_of, highest_in};
ghost use Rattle.tags.specs.TagValues.{entry_in, ficl_in};
ghost use Rattle.sorting.specs.TagRules.{item_rules_of};
ghost use Rattle.edi.specs.Regenerating.{entries_to, data_to, fields_for, main_for, Regenerates};
ghost use Rattle.edi.specs.EdiClauses.{long_to, over_rules, ValuesAt};

use frame::{Fields, Stream};
use items::Notes;
use refusals::Refusal;

// The entry of a stream item's value v.
#[tactic(auto, unfolding(tags::specs::TagValues::entry_in))]
fn entry(v: &[u8]) -> Stream
    requires { (3 ≤ length v.now) × (length v.now ≤ 8194) }
    ensures { result ≡ entry_in v.now }
{
    tags::entry(v, ((v.len() - 3) / 8) as u16)
}

#[tactic(auto, using(tags::proofs::TagLaws::ficl_small))]
fn main_length(m: &[u8], table: [Stream; 64], n: usize) -> usize
    ensures { result ≡ 4 * ficl_in m.now + 8 * stl_total (take n table) }
{
    let seen = refusing::look_over(table, n);
    tags::fic(m).len + 8 * (seen.total as usize)
}

// A packet that no rule of its items refuses, with what is noted of it.
#[derive(Drop)]
struct Sorted<'a> {
    packet: &'a [u8],
    notes: Notes,
    ghost accepted: { first (item_rules_of (items_of packet.now)) ≡ 0 },
    ghost highest: { notes.highest ≡ highest_in (items_of packet.now) },
    ghost placed: { ValuesAt packet.now notes.met },
}

impl<'a> Sorted<'a> {
    // The value of the management item.
    fn management(&self) -> &'a [u8]
        ensures { result.now ≡ value_of 0 (items_of self.now.packet.now) }
    {
        items::value(self.packet, self.notes.met[0].span())
    }

    // The value of the item of stream i + 1.
    fn stream(&self, i: usize) -> &'a [u8]
        requires { i < self.now.notes.highest }
        ensures { result.now ≡ value_of (i + 1) (items_of self.now.packet.now) }
    {
        items::value(self.packet, self.notes.met[i + 1].span())
    }

    // Some of the streams is of 1,024 words or more. No `any`: that i is below the count, as `stream` asks, a loop over the range knows.
    fn some_long(&self) -> bool
        ensures { result ≡ long_to (items_of self.now.packet.now) self.now.notes.highest }
    {
        let mut long = false;
        for i in 0..self.notes.highest {
            long |= self.stream(i).len() > 8194;
        }
        long
    }

    fn table(&self) -> [Stream; 64]
        requires { long_to (items_of self.now.packet.now) self.now.notes.highest ≡ false }
        ensures { result ≡ table_by (entries_to (items_of self.now.packet.now) self.now.notes.highest) }
    {
        let mut table = reading::no_streams();
        for i in 0..self.notes.highest {
            table[i] = entry(self.stream(i));
        }
        table
    }

    // The data of the streams, in the order of their numbers, from a place on.
    fn put_data(&self, main: &mut [u8], at: usize)
        requires { at + length (data_to (items_of self.now.packet.now) self.now.notes.highest) ≤ length main.old }
        ensures { main.new ≡ put main.old at (data_to (items_of self.now.packet.now) self.now.notes.highest) }
    {
        let mut next = at;
        for i in 0..self.notes.highest {
            let data = &self.stream(i)[3..];
            putting::put_bytes(main, next, data);
            next += data.len();
        }
    }

    // The FIC, then the streams' data.
    fn put_main(&self, main: &mut [u8])
        requires { length (main_for (items_of self.now.packet.now)) ≤ length main.old }
        ensures { main.new ≡ put main.old 0 (main_for (items_of self.now.packet.now)) }
    {
        let m = self.management();
        let fic = tags::fic(m);
        putting::put_bytes(main, 0, items::value(m, fic));
        self.put_data(main, fic.len);
    }

    // The frame of these fields, with the main stream put together. A function of its own, since the bytes are cleared twice where they are made in a branch.
    fn assemble(&self, x: Fields, len: usize, out: &mut [u8]) -> Result<(), Refusal>
        requires { (len ≡ length (main_for (items_of self.now.packet.now))) × (len ≤ 6124) }
        ensures { Writes x (main_for (items_of self.now.packet.now)) out.old out.new (outcome_number result) }
    {
        let mut main = [0u8; 6124];
        self.put_main(&mut main);
        writing::write(x, &main[..len], out)
    }

    // A main stream that no frame can hold is refused by the rules before the one on its length, whatever its bytes.
    fn build(&self, fsync1: bool, out: &mut [u8]) -> Result<(), Refusal>
        requires { long_to (items_of self.now.packet.now) self.now.notes.highest ≡ false }
        ensures { Writes (fields_for (items_of self.now.packet.now) fsync1) (main_for (items_of self.now.packet.now)) out.old out.new (outcome_number result) }
    {
        let m = self.management();
        let table = self.table();
        let x = tags::fields(m, fsync1, self.notes.highest, table);
        let len = main_length(m, table, self.notes.highest);
        if len > 6124 {
            return writing::write(x, b"", out);
        }
        self.assemble(x, len, out)
    }
}

// Rules 1 and 12, where some stream is too long for its field.
fn over(out: usize) -> Refusal
    ensures { refusal_number result ≡ first (over_rules out) }
{
    if out == 6144 {
        Refusal::TooWide
    } else {
        Refusal::Length
    }
}

// The network frame that the packet's items call for, into the output lent, with the sync word FSYNC1 or FSYNC0; refused,
// the output is as it was.
pub fn regenerate(packet: &[u8], fsync1: bool, out: &mut [u8]) -> Result<(), Refusal>
    ensures { Regenerates packet.now fsync1 out.old out.new (outcome_number result) }
{
    let sorted = Sorted {
        packet,
        notes: sorting::sort(packet)?,
    };
    if sorted.some_long() {
        return Err(over(out.len()));
    }
    sorted.build(fsync1, out)
}
