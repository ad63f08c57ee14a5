// Signalling for the transmitter's controller, on numbers and byte slices.
#![tactic(auto)]

ghost use Rattle.std.specs.Prelude.{◌≡◌, length};
ghost use Rattle.octets.specs.Words.{split, join, bytes8, eight_at, Fit};
ghost use Rattle.refusals.specs.Refusals.{outcome_number};
ghost use Rattle.sending.specs.SentGroups.{SendsMessage};
ghost use Rattle.signals.specs.SignalBytes.{item_kind, item_number, item_length, group_widths, group_values, group_in, message_widths, message_values, message_in, state_at, signal_refusal, Signalled};
ghost use Rattle.signals.specs.SignalClauses.{Left};

use refusals::Refusal;
use signalling::{Group, Item, Opened, State};

// An item's kind, its number, and a message's length.
fn item_values(item: Item) -> (u8, u8, usize)
    ensures { (result.0 ≡ item_kind item) × (result.1 ≡ item_number item) × (result.2 ≡ item_length item) }
{
    match item {
        Item::Nothing => (0, 0, 0),
        Item::Message(kind, n) => (1, kind, n),
        Item::Drop(refusal) => (2, refusal.number(), 0),
        Item::Refused(refusal) => (3, refusal.number(), 0),
    }
}

// The group being gathered, in the first eight bytes.
#[tactic(auto, unfolding(crate::specs::SignalBytes::group_in))]
fn group_in(signal: &[u8]) -> Group
    ensures { result ≡ group_in (eight_at signal.now 0) }
{
    Group {
        due: octets::byte(signal, 0) as u8,
        waiting: octets::byte(signal, 1) == 1,
        p0: octets::two(signal, 2) as u16,
        p1: octets::two(signal, 4) as u16,
        p2: octets::two(signal, 6) as u16,
    }
}

// The open message, in the six behind them.
#[tactic(auto, unfolding(crate::specs::SignalBytes::message_in))]
fn message_in(signal: &[u8]) -> Opened
    ensures { result ≡ message_in (eight_at signal.now 8) }
{
    Opened {
        on: octets::byte(signal, 8) == 1,
        kind: octets::byte(signal, 9) as u8,
        grnb: octets::byte(signal, 10) as u8,
        count: octets::byte(signal, 11) as u8,
        crc: octets::two(signal, 12) as u16,
    }
}

#[tactic(auto, unfolding(crate::specs::SignalBytes::state_at))]
fn state_in(signal: &[u8]) -> State
    ensures { result ≡ state_at signal.now }
{
    State {
        group: group_in(signal),
        message: message_in(signal),
    }
}

fn group_bytes(g: Group) -> [u8; 8]
    ensures { (result ≡ split bytes8 (join group_widths (group_values g))) × Fit group_widths (group_values g) }
{
    let [b2, b3] = g.p0.to_be_bytes();
    let [b4, b5] = g.p1.to_be_bytes();
    let [b6, b7] = g.p2.to_be_bytes();
    [g.due, u8::from(g.waiting), b2, b3, b4, b5, b6, b7]
}

// The open message, and the item's kind and number behind it.
fn message_bytes(m: Opened, kind: u8, number: u8) -> [u8; 8]
    ensures { (result ≡ split bytes8 (join message_widths (message_values m kind number))) × Fit message_widths (message_values m kind number) }
{
    let [b4, b5] = m.crc.to_be_bytes();
    [
        u8::from(m.on),
        m.kind,
        m.grnb,
        m.count,
        b4,
        b5,
        kind,
        number,
    ]
}

// The state in fourteen bytes, and the item in ten.
fn put_signal(out: &mut [u8], item: Item, state: State)
    requires { length out.old ≡ 24 }
    ensures { Left item state out.new }
{
    let (kind, number, len) = item_values(item);
    putting::put_bytes(out, 0, &group_bytes(state.group));
    putting::put_bytes(out, 8, &message_bytes(state.message, kind, number));
    putting::put8(out, 16, len);
}

// Refused where the state or the buffer is of another length than needed; then where a flag is wider than its bit.
#[tactic(auto, using(octets::proofs::Deciding::tests), unfolding(crate::specs::SignalBytes::signal_refusal))]
fn signal_refusal(signal: &[u8], bytes: &[u8]) -> Result<(), Refusal>
    ensures { outcome_number result ≡ signal_refusal signal.now bytes.now }
{
    if signal.len() != 24 || bytes.len() < 1538 {
        return Err(Refusal::Length);
    }
    if signal[1] > 1 || signal[8] > 1 {
        return Err(Refusal::TooWide);
    }
    Ok(())
}

fn step(fp: u8, mnsc: u16, signal: &mut [u8], bytes: &mut [u8]) -> Result<(), Refusal>
    ensures { Signalled fp mnsc signal.old bytes.old (outcome_number result) signal.new bytes.new }
{
    signal_refusal(signal, bytes)?;
    let state = state_in(signal);
    let step = state.step(fp, mnsc, bytes);
    put_signal(signal, step.item, step.state);
    Ok(())
}

// A frame's FP and MNSC to the signalling whose state is in the lent bytes: they then hold the state after it and its item.
// The message's bytes gather in the buffer, the same at each call.
#[unsafe(no_mangle)]
pub extern "C" fn spindlewren_signal_step(
    fp: u8,
    mnsc: u16,
    signal: &mut [u8],
    bytes: &mut [u8],
) -> u8
    ensures { Signalled fp mnsc signal.old bytes.old result signal.new bytes.new }
{
    refusals::outcome(step(fp, mnsc, signal, bytes))
}

// A message into the byte pairs of its frames: `send`.
#[unsafe(no_mangle)]
pub extern "C" fn spindlewren_signal_write(kind: u8, message: &[u8], out: &mut [u8]) -> u8
    ensures { SendsMessage kind message.now out.old result out.new }
{
    refusals::outcome(sending::send(kind, message, out))
}
