// Regenerating on byte slices, for C: the frame of a regional IP feed's packet.
#![tactic(auto)]

ghost use Rattle.std.specs.Prelude.{not, eqb};
ghost use Rattle.edi.specs.Regenerating.{Regenerates};

// The sync word is 073AB6 where the choice is 0, else F8C549. The refusal's number, 0 for none; refused, the output is as it was.
#[unsafe(no_mangle)]
pub extern "C" fn spindlewren_edi(packet: &[u8], choice: u8, out: &mut [u8]) -> u8
    ensures { Regenerates packet.now (not (eqb choice 0)) out.old out.new result }
{
    refusals::outcome(edi::regenerate(packet, choice != 0, out))
}
