// The two counts of a capture.
ghost use Rattle.std.specs.Prelude.{◌≡◌, ◌≤◌, length};
ghost use Rattle.std.specs.Float.Ieee.{is_nan};
ghost use Rattle.std.specs.Float.Ieee.Scale.{finite};
ghost use Rattle.answers.specs.Numbers.{longest};
ghost use Rattle.counts.specs.Counts.{is_infinite, counts_of};

use passes::parts::tallied;

// How many samples are no number, and how many are infinite.
#[derive(Clone, Copy, Drop)]
pub struct Counts {
    pub not_numbers: u32,
    pub infinite: u32,
}

// The word of infinity: every larger one, its sign cleared, is a NaN's.
const INFINITY: u32 = 0x7f80_0000;

// Whether x lies between the infinities.
pub fn is_finite(x: f32) -> bool
    ensures { result ≡ finite x }
{
    (x < f32::from_bits(INFINITY)) & (x > f32::from_bits(0xff80_0000))
}

// Whether a sample is no number: every number is at most infinity, and a NaN is not. (Its bits would tell, but the language reads those of numbers alone.)
fn is_no_number(x: f32) -> bool
    ensures { result ≡ is_nan x }
{
    !(x <= f32::from_bits(INFINITY))
}

// Whether a sample is infinite, by its bits without the sign.
fn is_infinite(x: f32) -> bool
    ensures { result ≡ is_infinite x }
{
    if is_no_number(x) {
        return false;
    }
    f32::to_bits(x) & 0x7fff_ffff == INFINITY
}

// Both in one walk.
#[tactic(auto, unfolding(laws::specs::Walks::over, laws::specs::HowMany::how_many, crate::specs::Counts::not_numbers_of, crate::specs::Counts::infinite_of))]
pub fn count(samples: &[f32]) -> Counts
    requires { length samples.now ≤ longest }
    ensures { result ≡ counts_of samples.now }
{
    let mut not_numbers = 0;
    let mut infinite = 0;
    for &x in samples {
        not_numbers = tallied(not_numbers, is_no_number(x));
        infinite = tallied(infinite, is_infinite(x));
    }
    Counts {
        not_numbers,
        infinite,
    }
}
