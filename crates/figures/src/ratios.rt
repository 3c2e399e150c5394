// Figures of other figures.
ghost use Rattle.std.specs.Prelude.{◌≡◌};
ghost use Rattle.laws.specs.Quotients.{ratio_or_zero};
ghost use Rattle.figures.specs.Ratios.{crest_of, period_of, excess_of};

// a / b; 0 where b is not above 1e-12, a NaN included.
#[tactic(auto, unfolding(laws::specs::Quotients::ratio_or_zero))]
pub fn ratio(a: f32, b: f32) -> f32
    ensures { result ≡ ratio_or_zero a b }
{
    if b > 1e-12 { a / b } else { 0.0 }
}

// The larger size of the extremes, over the RMS.
#[tactic(auto, unfolding(crate::specs::Ratios::crest_of))]
pub fn crest(max: f32, min: f32, rms: f32) -> f32
    ensures { result ≡ crest_of max min rms }
{
    ratio(
        passes::parts::raised(number::abs32(max), number::abs32(min)),
        rms,
    )
}

// The period of a frequency; 0 where that is not above 0.
#[tactic(auto, unfolding(crate::specs::Ratios::period_of))]
pub fn period(frequency: f32) -> f32
    ensures { result ≡ period_of frequency }
{
    if frequency > 0.0 {
        1.0 / frequency
    } else {
        0.0
    }
}

// How far x lies above the limit, in percent of the swing; 0 where it does not, or the swing is not above 1e-12.
#[tactic(auto, unfolding(crate::specs::Ratios::excess_of))]
pub fn excess(x: f32, limit: f32, swing: f32) -> f32
    ensures { result ≡ excess_of x limit swing }
{
    if swing > 1e-12 && x > limit {
        (x - limit) / swing * 100.0
    } else {
        0.0
    }
}
