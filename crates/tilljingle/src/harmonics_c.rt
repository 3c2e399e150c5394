// Harmonics in place: the caller lends the 16 places of a port, and no port is passed. The same rule as `port_c`'s harmonics.
ghost use Rattle.std.specs.Prelude.{◌≡◌};
ghost use Rattle.crossing.specs.InPlace.{harmonic_at, with_harmonic};

use crossing::harmonics::{harmonic_at, with_harmonic};
use crossing::readings::TjReading;

#[unsafe(no_mangle)]
pub extern "C" fn tj_harmonic(harmonics: &[TjReading; 16], n: u8) -> TjReading
    ensures { result ≡ harmonic_at harmonics.now n }
{
    harmonic_at(*harmonics, n)
}

#[unsafe(no_mangle)]
pub extern "C" fn tj_set_harmonic(harmonics: &mut [TjReading; 16], n: u8, value: TjReading)
    ensures { harmonics.new ≡ with_harmonic harmonics.old n value }
{
    *harmonics = with_harmonic(*harmonics, n, value);
}
