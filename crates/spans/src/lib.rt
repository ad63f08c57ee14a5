// Where the parts of a frame's main stream lie, and which requests for them are refused.
#![tactic(auto)]

ghost use Rattle.std.specs.Prelude.{◌≡◌};
ghost use Rattle.frame.specs.Frame.{fic_span, stream_span};
ghost use Rattle.frame.specs.Rules.{refusal_of, stream_refusal_of, fic_part, stream_part};
ghost use Rattle.refusals.specs.Refusals.{outcome_number};

use frame::Span;
use refusals::Refusal;

// Whether a request for the FIC is granted: refused as reading is.
pub fn fic_refusal(frame: &[u8]) -> Result<(), Refusal>
    ensures { outcome_number result ≡ refusal_of frame.now }
{
    judging::judge(frame)
}

// Whether a request for stream i is granted: refused as for the FIC, then where there is no such stream.
pub fn stream_refusal(frame: &[u8], i: usize) -> Result<(), Refusal>
    ensures { outcome_number result ≡ stream_refusal_of frame.now i }
{
    fic_refusal(frame)?;
    let fc = fields::fc(frame);
    if fc.nst as usize <= i {
        return Err(Refusal::NoSuchStream);
    }
    Ok(())
}

fn fic_span(frame: &[u8]) -> Span
    ensures { result ≡ fic_span frame.now }
{
    let fc = fields::fc(frame);
    Span {
        start: 4 + (fc.nst as usize + 2) * 4,
        len: 4 * meaning::ficl(fc.ficf, fc.mid),
    }
}

fn stream_span(frame: &[u8], i: u8) -> Span
    ensures { result ≡ stream_span frame.now i }
{
    let fc = fields::fc(frame);
    let seen = judging::look_over(frame, i);
    let entry = fields::entry(frame, i as usize);
    Span {
        start: 4
            + (fc.nst as usize + 2) * 4
            + 4 * meaning::ficl(fc.ficf, fc.mid)
            + 8 * (seen.total as usize),
        len: 8 * (entry.stl as usize),
    }
}

// Where the FIC lies: an empty part at the frame's start where the request is refused.
pub fn fic_place(frame: &[u8]) -> Span
    ensures { result ≡ fic_part frame.now }
{
    match fic_refusal(frame) {
        Ok(()) => fic_span(frame),
        Err(_) => Span { start: 0, len: 0 },
    }
}

// Where stream i lies, likewise.
pub fn stream_place(frame: &[u8], i: usize) -> Span
    ensures { result ≡ stream_part frame.now i }
{
    match stream_refusal(frame, i) {
        Ok(()) => stream_span(frame, i as u8),
        Err(_) => Span { start: 0, len: 0 },
    }
}
