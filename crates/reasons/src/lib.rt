// Why a place of a record was not aired, on numbers and byte slices, for C.
#![tactic(auto)]

ghost use Rattle.std.specs.Prelude.{◌≡◌, length};
ghost use Rattle.why.specs.Why.{reason_number, refusal_given, place_given};
ghost use Rattle.reasons.specs.WhyBytes.{why_bytes, Asks};

use refusals::Refusal;
use why::Reason;

// What is told of a reason: its own number, the refusal number that it gives, and the place of the item before it.
#[derive(Clone, Copy)]
struct Numbers {
    reason: u8,
    refusal: u8,
    before: usize,
}

fn numbers_of(reason: Reason) -> Numbers
    ensures { (result.reason ≡ reason_number reason) × (result.refusal ≡ refusal_given reason) × (result.before ≡ place_given reason) }
{
    let (reason, refusal, before) = match reason {
        Reason::HandedOut => (0, 0, 0),
        Reason::Lost(refusal) => (1, refusal.number(), 0),
        Reason::Refused(refusal) => (2, refusal.number(), 0),
        Reason::NotStanding => (3, 0, 0),
        Reason::SameSync => (4, 0, 0),
        Reason::SteppedOver(place) => (5, 0, place),
    };
    Numbers {
        reason,
        refusal,
        before,
    }
}

// A reason in ten bytes.
fn put_reason(out: &mut [u8], reason: Reason)
    requires { length out.old ≡ 10 }
    ensures { out.new ≡ why_bytes reason }
{
    let numbers = numbers_of(reason);
    putting::put_bytes(out, 0, &[numbers.reason, numbers.refusal]);
    putting::put8(out, 2, numbers.before);
}

// The reason for a place of a record, in the walk with a limit of misses. 27 for a limit outside 1 to 8, then 1 for answer bytes of another length, then 34 for a
// place outside 0 to length - 6,144; refused, not one byte is written.
#[unsafe(no_mangle)]
pub extern "C" fn spindlewren_why(bytes: &[u8], limit: usize, place: usize, answer: &mut [u8]) -> u8
    ensures { Asks bytes.now limit place answer.old answer.new result }
{
    if let Err(refusal) = walk::limit_refusal(limit) {
        return refusal.number();
    }
    if answer.len() != 10 {
        return Refusal::Length.number();
    }
    match why::why(bytes, limit, place) {
        Ok(reason) => {
            put_reason(answer, reason);
            0
        }
        Err(refusal) => refusal.number(),
    }
}
