// The final-stage profile on byte slices, for C: its number, and the streams that it is about.
#![tactic(auto)]

ghost use Rattle.std.specs.Prelude.{◌≡◌};
ghost use Rattle.places.specs.Places.{profile_of};
ghost use Rattle.refusals.specs.Refusals.{outcome_number};
ghost use Rattle.profiles.specs.ProfileBytes.{collision_bytes, CollisionTold};

use collision::Collision;
use refusals::Refusal;

// Reading's refusal, then 30 to 33; 0 is yes.
#[unsafe(no_mangle)]
pub extern "C" fn spindlewren_profile(frame: &[u8]) -> u8
    ensures { result ≡ profile_of frame.now }
{
    refusals::outcome(profile::judge(frame))
}

// The profile's number, and the streams that it is about.
fn found(frame: &[u8]) -> [u8; 3]
    ensures { result ≡ collision_bytes frame.now }
{
    match collision::find(frame) {
        Ok(()) => [0; 3],
        Err(Collision { refusal, two }) => [refusal.number(), two.first, two.second],
    }
}

// The same with what is refused.
fn tell(frame: &[u8], out: &mut [u8]) -> Result<(), Refusal>
    ensures { CollisionTold frame.now out.old out.new (outcome_number result) }
{
    if out.len() != 3 {
        return Err(Refusal::Length);
    }
    judging::judge(frame)?;
    out.copy_from_slice(&found(frame));
    Ok(())
}

// 1 for answer bytes that are not 3, then reading's refusal; of an accepted frame the profile's number and two streams are written.
#[unsafe(no_mangle)]
pub extern "C" fn spindlewren_collision(frame: &[u8], out: &mut [u8]) -> u8
    ensures { CollisionTold frame.now out.old out.new result }
{
    refusals::outcome(tell(frame, out))
}
