// The parts of a frame's main stream: their bytes, as parts of the frame lent.
#![tactic(auto)]

ghost use Rattle.std.specs.Prelude.{◌≡◌, ◌+◌, ◌≤◌, length};
ghost use Rattle.frame.specs.Frame.{main_span};
ghost use Rattle.frame.specs.Rules.{main_part, fic_part, stream_part, Acceptable};
ghost use Rattle.frame.specs.Answers.{PartAt};

use frame::Span;

fn main_span(frame: &[u8]) -> Span
    requires { Acceptable frame.now }
    ensures { result ≡ main_span frame.now }
{
    let fc = fields::fc(frame);
    let start = 4 + (fc.nst as usize + 2) * 4;
    let end = 4 + (fc.fl as usize + 1) * 4;
    Span {
        start,
        len: end - start,
    }
}

fn main_place(frame: &[u8]) -> Span
    ensures { result ≡ main_part frame.now }
{
    match judging::judge(frame) {
        Ok(()) => main_span(frame),
        Err(_) => Span { start: 0, len: 0 },
    }
}

fn part(frame: &[u8], place: Span) -> &[u8]
    requires { place.start + place.len ≤ length frame.now }
    ensures { PartAt frame.entry place result }
{
    let start = place.start;
    let end = start + place.len;
    &frame[start..end]
}

// The bytes of the whole main stream, as a part of the frame lent.
pub fn main_stream(frame: &[u8]) -> &[u8]
    ensures { PartAt frame.entry (main_part frame.now) result }
{
    part(frame, main_place(frame))
}

// The bytes of the FIC, as a part of the frame lent.
pub fn fic(frame: &[u8]) -> &[u8]
    ensures { PartAt frame.entry (fic_part frame.now) result }
{
    part(frame, spans::fic_place(frame))
}

// The bytes of stream i, as a part of the frame lent.
pub fn stream(frame: &[u8], i: usize) -> &[u8]
    ensures { PartAt frame.entry (stream_part frame.now i) result }
{
    part(frame, spans::stream_place(frame, i))
}
