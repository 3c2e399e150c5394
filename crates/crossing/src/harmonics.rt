// The 16 harmonic places of a port as the caller lends them: the rule of the port's own harmonics, and no port is passed.
ghost use Rattle.std.specs.Prelude.{◌≡◌};
ghost use Rattle.crossing.specs.PortCrossing.{reading_in, reading_out};
ghost use Rattle.crossing.specs.InPlace.{harmonic_at, with_harmonic};

use crate::readings::{ABSENT, TjReading};

// A reading as a port keeps it and gives it out again: what is absent has the value 0.
fn kept(r: TjReading) -> TjReading
    ensures { result ≡ reading_out (reading_in r) }
{
    Option::from(r).into()
}

// The reading at a place; absent for a place of 16 or above.
pub fn harmonic_at(harmonics: [TjReading; 16], n: u8) -> TjReading
    ensures { result ≡ harmonic_at harmonics n }
{
    if 16 <= n {
        return ABSENT;
    }
    kept(harmonics[n as usize])
}

// The readings with a value at a place; unchanged for a place of 16 or above.
pub fn with_harmonic(mut harmonics: [TjReading; 16], n: u8, value: TjReading) -> [TjReading; 16]
    ensures { result ≡ with_harmonic harmonics n value }
{
    if n < 16 {
        harmonics[n as usize] = kept(value);
    }
    harmonics
}
