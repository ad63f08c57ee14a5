// The tag items of a packet, judged: rules 20, 21, 22 and 35.
#![tactic(auto)]

ghost use Rattle.std.specs.Prelude.{◌≡◌, ◌<◌, MatchOption};
ghost use Rattle.std.specs.List.{list_all};
ghost use Rattle.refusals.specs.Refusals.{outcome_number};
ghost use Rattle.frame.specs.Rules.{first};
ghost use Rattle.items.specs.TagItems.{items_of, values_of, value_of};
ghost use Rattle.items.specs.PassNotes.{Holds, ValueAt, Finds};
ghost use Rattle.tags.specs.TagValues.{level_in};
ghost use Rattle.sorting.specs.TagRules.{is_managed, item_rules_of, Sorts};
ghost use Rattle.sorting.specs.SortClauses.{is_once};

use frame::Span;
use items::{Met, Notes};
use refusals::Refusal;

// Of what is noted of the management item.
fn managed(packet: &[u8], met: Met) -> bool
    requires { Holds packet.now (values_of 0 (items_of packet.now)) met }
    ensures { result ≡ is_managed (items_of packet.now) }
{
    match met {
        Met::Once(span) => tags::called(items::value(packet, span)),
        _ => false,
    }
}

// The level by the status byte, if it is one of the four.
fn level(packet: &[u8], span: Span) -> Option<u8>
    requires { ValueAt packet.now (value_of 0 (items_of packet.now)) span }
    ensures { MatchOption result (level_in (value_of 0 (items_of packet.now)) ≡ 4) (λ level. (level ≡ level_in (value_of 0 (items_of packet.now))) × (level < 4)) }
{
    meaning::status_level(tags::deti(items::value(packet, span)).stat)
}

fn all_once(notes: &[Met]) -> bool
    ensures { result ≡ list_all is_once notes.now }
{
    notes.iter().all(|met| matches!(*met, Met::Once(_)))
}

// Rules 21, 22 and 35.
fn judge(packet: &[u8], notes: &Notes) -> Result<(), Refusal>
    requires { Finds packet.now notes.now }
    ensures { outcome_number result ≡ first (item_rules_of (items_of packet.now)) }
{
    let management = notes.met[0];
    if !managed(packet, management) {
        return Err(Refusal::ManagementItem);
    }
    if !all_once(&notes.met[1..=notes.highest]) {
        return Err(Refusal::StreamNumbers);
    }
    match level(packet, management.span()) {
        Some(_) => Ok(()),
        None => Err(Refusal::ItemStatus),
    }
}

// What is noted of a packet that none of its items' rules refuses.
pub fn sort(packet: &[u8]) -> Result<Notes, Refusal>
    ensures { Sorts packet.now result }
{
    // told at once, without notes of items that aren't there
    if packet.is_empty() {
        return Err(Refusal::ManagementItem);
    }
    let notes = items::pass(packet)?;
    judge(packet, &notes)?;
    Ok(notes)
}
