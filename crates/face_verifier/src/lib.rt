// The C face of the verifier, its answer as numbers.
#![tactic(auto)]

ghost use Rattle.std.specs.Prelude.{◌≡◌};
ghost use Rattle.verifier.specs.Verify.{verify_of};
ghost use Rattle.answers.specs.Verdicts.{verified_in};

use answers::KhxVerdict;

// Whether a program may run with so many cells, and the depth map.
#[unsafe(no_mangle)]
pub extern "C" fn khx_verify(program: &[u8], cells: usize, map: &mut [u16]) -> KhxVerdict
    ensures { (result, map.new) ≡ verified_in (verify_of program.now cells map.old) }
{
    KhxVerdict::from(verifier::verify(program, cells, map))
}
