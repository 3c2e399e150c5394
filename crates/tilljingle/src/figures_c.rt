// The time figures.
ghost use Rattle.std.specs.Prelude.{◌≡◌};
ghost use Rattle.figures.specs.Figures.{answer_of};
ghost use Rattle.generator.specs.Wave.{wave_of};
ghost use Rattle.crossing.specs.FiguresCrossing.{coded_figures};

use crossing::times::CodedFigures;
use figures::TimeFigures;
use generator::Wave;

#[unsafe(no_mangle)]
pub extern "C" fn tj_calculate_time_figures(
    wave: u8,
    amplitude: f32,
    frequency: f32,
    earlier: TimeFigures,
    samples: &[f32],
) -> CodedFigures
    ensures { result ≡ coded_figures earlier (answer_of (wave_of wave) amplitude frequency earlier samples.now) }
{
    let kind = Wave::from(wave);
    CodedFigures::new(
        earlier,
        figures::calculate_time_figures(kind, amplitude, frequency, earlier, samples),
    )
}
