// Frequency and slew rate.
ghost use Rattle.std.specs.Prelude.{◌≡◌};
ghost use Rattle.crossing.specs.Measured.{figure_of};
ghost use Rattle.timing.specs.Timing.{frequency_answer, slew_answer};

use crossing::measured::Figure;

#[unsafe(no_mangle)]
pub extern "C" fn tj_measure_frequency(samples: &[f32], sample_rate: f32) -> Figure
    ensures { result ≡ figure_of (frequency_answer samples.now sample_rate) }
{
    timing::measure_frequency(samples, sample_rate).into()
}

#[unsafe(no_mangle)]
pub extern "C" fn tj_slew_rate(samples: &[f32], sample_rate: f32) -> Figure
    ensures { result ≡ figure_of (slew_answer samples.now sample_rate) }
{
    timing::slew_rate(samples, sample_rate).into()
}
