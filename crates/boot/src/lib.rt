// The boot loader's sum: the small one, alone in its archive.
#![tactic(auto)]

ghost use Rattle.std.specs.Prelude.{◌≡◌};
ghost use Rattle.sum.specs.Sum.{sum_of};

#[unsafe(no_mangle)]
pub extern "C" fn spindlewren_boot_sum(bytes: &[u8]) -> u16
    ensures { result ≡ sum_of bytes.now }
{
    sum::sum(bytes)
}
