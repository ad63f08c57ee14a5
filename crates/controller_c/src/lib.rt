// The reading for the transmitter's controller, for C: the exports of the archive `controller`.
// The exports stand here once more, since no crate can be built on a static library, and others are built on `controller`.
#![tactic(auto)]

ghost use Rattle.frame.specs.Rules.{refusal_of, stream_refusal_of, fic_part, stream_part};
ghost use Rattle.encoded.specs.AnswerBytes.{answer_of};
ghost use Rattle.controller.specs.Boundary.{part_bytes, Told};

// The refusal number, 0 for accepted; then the answer bytes hold the header and the table. Refused, not one is written.
#[unsafe(no_mangle)]
pub extern "C" fn spindlewren_read(frame: &[u8], answer: &mut [u8]) -> u8
    ensures { Told 406 (refusal_of frame.now) (answer_of frame.now) answer.old answer.new result }
{
    controller::spindlewren_read(frame, answer)
}

// The refusal number of a request for the FIC; where it is 0, the answer bytes hold the FIC's place and length.
#[unsafe(no_mangle)]
pub extern "C" fn spindlewren_fic(frame: &[u8], answer: &mut [u8]) -> u8
    ensures { Told 4 (refusal_of frame.now) (part_bytes (fic_part frame.now)) answer.old answer.new result }
{
    controller::spindlewren_fic(frame, answer)
}

// Likewise for stream i.
#[unsafe(no_mangle)]
pub extern "C" fn spindlewren_stream(frame: &[u8], i: usize, answer: &mut [u8]) -> u8
    ensures { Told 4 (stream_refusal_of frame.now i) (part_bytes (stream_part frame.now i)) answer.old answer.new result }
{
    controller::spindlewren_stream(frame, i, answer)
}
