// THD as a signal keeps it.
ghost use Rattle.std.specs.Prelude.{◌≡◌, ◌≤◌, true, length};
ghost use Rattle.spectrum.specs.Grid.{on_grid};
ghost use Rattle.distortion.specs.Thd as Thd;

use crate::{fundamental, harmonics};

// THD of the samples at a frequency, with orders up to `top`; the earlier one where the fundamental's bin is unusable or silent.
pub fn thd(samples: &[f32], frequency: f32, top: usize, earlier: f32) -> f32
    requires samples_value { on_grid (length samples.now) ≡ true }
    requires le_top { (1 ≤ top) × (top ≤ 65536) }
    ensures { result ≡ Thd.thd_of top frequency earlier samples.now }
{
    let n = samples.len();
    let bin = fundamental::fundamental_bin(frequency, n);
    if fundamental::usable(frequency, n / 2, bin) {
        return harmonics::thd_at(samples, bin, top, earlier);
    }
    earlier
}
