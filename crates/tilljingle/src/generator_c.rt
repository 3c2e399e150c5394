// The generator.
ghost use Rattle.std.specs.Prelude.{◌≡◌};
ghost use Rattle.answers.specs.Numbers.{number_of};
ghost use Rattle.answers.specs.Left.{left, answered_as};
ghost use Rattle.generator.specs.Wave.{wave_of};
ghost use Rattle.generator.specs.Sample.{shape_of, generated};

use generator::Wave;

#[unsafe(no_mangle)]
pub extern "C" fn tj_generate_samples(
    wave: u8,
    amplitude: f32,
    phase: f32,
    frequency: f32,
    duty_cycle: f32,
    samples: &mut [f32],
) -> u8
    ensures { left result samples.new ≡ answered_as number_of (generated (shape_of (wave_of wave) amplitude phase frequency duty_cycle) samples.old) }
{
    let kind = Wave::from(wave);
    answers::code_of(generator::generate_samples(
        kind, amplitude, phase, frequency, duty_cycle, samples,
    ))
}
