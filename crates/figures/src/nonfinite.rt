// The counts of the samples that are no number and of those that are infinite.
ghost use Rattle.std.specs.Prelude.{◌≡◌, ◌≤◌, length};
ghost use Rattle.answers.specs.Numbers.{longest};
ghost use Rattle.counts.specs.Counts.{counts_of};
ghost use Rattle.figures.specs.Levels.{rectified_of};

use counts::parts::Counts;

// Where the mean of the samples' sizes is finite so is each of them, and there is nothing to count: a good capture is not walked over once more.
pub fn counts_of(samples: &[f32], rectified: f32) -> Counts
    requires { (length samples.now ≤ longest) × (rectified ≡ rectified_of samples.now) }
    ensures { result ≡ counts_of samples.now }
{
    if counts::parts::is_finite(rectified) {
        return Counts {
            not_numbers: 0,
            infinite: 0,
        };
    }
    counts::parts::count(samples)
}
