// The check sum of the recorded bytes, Adler-32.
ghost use Rattle.std.specs.Prelude.{◌≡◌};
ghost use Rattle.sequences.specs.Sums.{adler as Sums·adler};

const MODULUS: u32 = 65521;

#[tactic(auto, unfolding(crate::specs::Sums::adler), using(crate::proofs::Sums::adler_steps))]
pub fn adler(bytes: &[u8]) -> u32
    ensures { result ≡ Sums·adler bytes.now }
{
    let mut a = 1;
    let mut b = 0;
    for byte in bytes {
        a = (a + u32::from(*byte)) % MODULUS;
        b = (b + a) % MODULUS;
    }
    b * 65536 + a
}
