// A night's items kept in a log: each item of a walk as a record of sixteen bytes.
#![tactic(auto)]

ghost use Rattle.std.specs.Prelude.{◌≡◌};
ghost use Rattle.refusals.specs.Refusals.{outcome_number};
ghost use Rattle.nightlog.specs.Log.{WritesEntry};
ghost use Rattle.nights.specs.Nights.{entry_of};

use nightlog::{Entry, FRAME, IDLE, LOST};
use refusals::Refusal;
use walk::Item;

fn entry_of(item: Item) -> Entry
    ensures { result ≡ entry_of item }
{
    match item {
        Item::Frame(place, header) => Entry {
            place,
            kind: FRAME,
            code: header.fct,
            level: header.level,
        },
        Item::Lost(place, refusal) => Entry {
            place,
            kind: LOST,
            code: refusal.number(),
            level: 0xFF,
        },
        Item::Idle(place) => Entry {
            place,
            kind: IDLE,
            code: 4,
            level: 0xFF,
        },
        // No record has this kind, so that `write` refuses it.
        Item::Done(place) => Entry {
            place,
            kind: 3,
            code: 0,
            level: 0xFF,
        },
    }
}

// An item into lent bytes: 37 when not exactly sixteen are lent, then 29 for done and for an item whose code or level is not allowed.
// Nothing is written on a refusal.
pub fn keep(item: Item, out: &mut [u8]) -> Result<(), Refusal>
    ensures { WritesEntry (entry_of item) out.old out.new (outcome_number result) }
{
    nightlog::write(entry_of(item), out)
}
