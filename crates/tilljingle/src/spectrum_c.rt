// The magnitude spectrum, one bin at a time, and several at a time with lent scratch.
ghost use Rattle.std.specs.Prelude.{◌≡◌};
ghost use Rattle.answers.specs.Numbers.{number_of};
ghost use Rattle.answers.specs.Left.{left, answered_as};
ghost use Rattle.spectrum.specs.Spectrum.{spectrum_of};
ghost use Rattle.spectrum.specs.Sines.{spectrum_in};

#[unsafe(no_mangle)]
pub extern "C" fn tj_dft_magnitude_spectrum(samples: &[f32], output: &mut [f32]) -> u8
    ensures { left result output.new ≡ answered_as number_of (spectrum_of samples.now output.old) }
{
    answers::code_of(spectrum::dft_magnitude_spectrum(samples, output))
}

#[unsafe(no_mangle)]
pub extern "C" fn tj_dft_magnitude_spectrum_in(
    samples: &[f32],
    scratch: &mut [f64],
    output: &mut [f32],
) -> u8
    ensures { left result (output.new, scratch.new)
        ≡ answered_as number_of (spectrum_in samples.now scratch.old output.old) }
{
    answers::code_of(spectrum::dft_magnitude_spectrum_in(samples, scratch, output))
}
