// The reading for the transmitter's controller, on numbers and byte slices: refusals are told by their numbers, since C has no Result.
#![tactic(auto)]

ghost use Rattle.std.specs.Prelude.{◌≡◌};
ghost use Rattle.frame.specs.Rules.{refusal_of, stream_refusal_of, fic_part, stream_part};
ghost use Rattle.encoded.specs.AnswerBytes.{answer_of};
ghost use Rattle.controller.specs.Boundary.{part_bytes, Told};

use frame::Span;
use refusals::Refusal;

// The refusal number, 0 for accepted; then the answer bytes hold the header and the table. Refused, not one is written.
#[unsafe(no_mangle)]
pub extern "C" fn spindlewren_read(frame: &[u8], answer: &mut [u8]) -> u8
    ensures { Told 406 (refusal_of frame.now) (answer_of frame.now) answer.old answer.new result }
{
    if answer.len() != 406 {
        return Refusal::Length.number();
    }
    // the table is named before the answer is looked at: otherwise it is copied, by C's memcpy
    let reading = reading::read(frame);
    let table = reading.table;
    match reading.answer {
        Ok(header) => {
            encoded::put_answer(answer, header, table);
            0
        }
        Err(refusal) => refusal.number(),
    }
}

// Where a part of a frame begins and how many bytes it has, in two bytes each.
#[tactic(auto, unfolding(crate::specs::Boundary::part_bytes))]
fn in_bytes(part: Span) -> [u8; 4]
    ensures { result ≡ part_bytes part }
{
    let start = part.start.to_be_bytes();
    let len = part.len.to_be_bytes();
    [start[6], start[7], len[6], len[7]]
}

// The refusal number of a request for the FIC; where it is 0, the answer bytes hold the FIC's place and length. No frame is looked at for an answer of
// another length, and none that is refused a second time.
#[unsafe(no_mangle)]
pub extern "C" fn spindlewren_fic(frame: &[u8], answer: &mut [u8]) -> u8
    ensures { Told 4 (refusal_of frame.now) (part_bytes (fic_part frame.now)) answer.old answer.new result }
{
    if answer.len() != 4 {
        return Refusal::Length.number();
    }
    if let Err(refusal) = spans::fic_refusal(frame) {
        return refusal.number();
    }
    answer.copy_from_slice(&in_bytes(spans::fic_place(frame)));
    0
}

// Likewise for stream i.
#[unsafe(no_mangle)]
pub extern "C" fn spindlewren_stream(frame: &[u8], i: usize, answer: &mut [u8]) -> u8
    ensures { Told 4 (stream_refusal_of frame.now i) (part_bytes (stream_part frame.now i)) answer.old answer.new result }
{
    if answer.len() != 4 {
        return Refusal::Length.number();
    }
    if let Err(refusal) = spans::stream_refusal(frame, i) {
        return refusal.number();
    }
    answer.copy_from_slice(&in_bytes(spans::stream_place(frame, i)));
    0
}
