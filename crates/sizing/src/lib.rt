// How many times a walk puts the acceptance test to a place, for C: the number by which a card's processor is sized.
#![tactic(auto)]

ghost use Rattle.walks.specs.WalkCalls.{Limited};
ghost use Rattle.sizing.specs.CountBytes.{count_bytes};

use refusals::Refusal;

// 27 for a limit outside 1 to 8, then 1 for an answer of another length than 8; otherwise the answer holds the count.
#[unsafe(no_mangle)]
pub extern "C" fn spindlewren_looks(bytes: &[u8], limit: usize, answer: &mut [u8]) -> u8
    ensures { Limited limit 8 (count_bytes limit bytes.now) answer.old answer.new result }
{
    if let Err(refusal) = walk::limit_refusal(limit) {
        return refusal.number();
    }
    if answer.len() != 8 {
        return Refusal::Length.number();
    }
    let count = looks::count(bytes, limit).unwrap();
    putting::put8(answer, 0, count);
    0
}
