// Relaying on byte slices, for C: what each station of a transmitter network runs.
#![tactic(auto)]

ghost use Rattle.relay.specs.Relaying.{Relays};

// Reading's refusal, then 1 for an output of another length; otherwise the frame is written again into the output.
#[unsafe(no_mangle)]
pub extern "C" fn spindlewren_relay(frame: &[u8], out: &mut [u8]) -> u8
    ensures { Relays frame.now out.old out.new result }
{
    refusals::outcome(relay::relay(frame, out))
}
