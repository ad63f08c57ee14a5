// The way back: a message into the byte pairs of frames, the closing sum supplied.
#![tactic(auto)]

ghost use Rattle.std.specs.Prelude.{◌≡◌, ◌+◌, ◌*◌, ◌≤◌, length, take, drop};
ghost use Rattle.octets.specs.Stores.{put};
ghost use Rattle.refusals.specs.Refusals.{outcome_number};
ghost use Rattle.signalling.specs.Messages.{in_row};
ghost use Rattle.sending.specs.SentGroups.{start_group, continuation_group, end_group, continuations, send_refusal, bytes_of, SendsMessage};
ghost use Rattle.sending.specs.SendClauses.{Carries};

use refusals::Refusal;

// Refused where the groups cannot carry the length; then where the output is of another length than needed.
#[tactic(auto, using(octets::proofs::Deciding::tests), unfolding(crate::specs::SentGroups::send_refusal))]
fn send_refusal(len: usize, out: usize) -> Result<(), Refusal>
    ensures { outcome_number result ≡ send_refusal len out }
{
    if len < 8 || len > 1538 || (len - 8) % 6 != 0 {
        return Err(Refusal::MessageLength);
    }
    if out != 8 * ((len - 8) / 6 + 2) {
        return Err(Refusal::Length);
    }
    Ok(())
}

fn put_start(out: &mut [u8], kind: u8, n: u8, four: &[u8])
    requires { length four.now ≡ 4 }
    ensures { out.new ≡ put out.old 0 (start_group kind n four.now) }
{
    let mut group = [0xC0, 0, kind, n, 0, 0, 0, 0];
    group[4..].copy_from_slice(four);
    putting::put_bytes(out, 0, &group);
}

fn put_continuation(out: &mut [u8], at: usize, six: &[u8])
    requires { length six.now ≡ 6 }
    ensures { out.new ≡ put out.old at (continuation_group six.now) }
{
    let mut group = [0xC3, 0, 0, 0, 0, 0, 0, 0];
    group[2..].copy_from_slice(six);
    putting::put_bytes(out, at, &group);
}

// The continuations, from byte 8 on.
fn put_continuations(out: &mut [u8], n: usize, m: &[u8])
    requires { (8 + 8 * n ≤ length out.old) × (4 + 6 * n ≤ length m.now) × (n ≤ 255) }
    ensures { out.new ≡ put out.old 8 (in_row (continuations n (drop 4 m.now))) }
{
    for i in 0..n {
        let from = 4 + 6 * i;
        put_continuation(out, 8 + 8 * i, &m[from..from + 6]);
    }
}

// The end group, with the closing sum of all that stands before it.
fn put_end(out: &mut [u8], at: usize, four: &[u8])
    requires { (at + 8 ≤ length out.old) × (length four.now ≡ 4) }
    ensures { out.new ≡ put out.old at (end_group (take at out.old) four.now) }
{
    putting::put_bytes(out, at, &[0xCC, 0]);
    putting::put_bytes(out, at + 2, four);
    let sum = ring::sum(&out[..at + 6]);
    putting::put_bytes(out, at + 6, &sum.to_be_bytes());
}

fn put_groups(kind: u8, m: &[u8], out: &mut [u8])
    requires { Carries (length m.now) (length out.old) }
    ensures { out.new ≡ bytes_of kind m.now }
{
    let n = (m.len() - 8) / 6;
    put_start(out, kind, n as u8, &m[..4]);
    put_continuations(out, n, m);
    put_end(out, 8 + 8 * n, &m[4 + 6 * n..]);
}

// A message into the byte pairs of its frames: pair k, two bytes from 2 k on, goes into a frame whose phase is k modulo 4.
// Refused, the output is as it was.
pub fn send(kind: u8, m: &[u8], out: &mut [u8]) -> Result<(), Refusal>
    ensures { SendsMessage kind m.now out.old (outcome_number result) out.new }
{
    send_refusal(m.len(), out.len())?;
    put_groups(kind, m, out);
    Ok(())
}
