// Whether a call goes on, by the number of places and the bin.
ghost use Rattle.std.specs.Prelude.{◌≡◌};
ghost use Rattle.quality.specs.Judged.{judged};
ghost use Rattle.quality.specs.Quality.{unusable_bin};

use answers::{LONGEST, Refusal};

// Whether this bin of n places is 0 or past the end.
#[tactic(auto, unfolding(crate::specs::Quality::unusable_bin))]
fn is_unusable(n: usize, bin: usize) -> bool
    ensures { result ≡ unusable_bin n bin }
{
    if bin == 0 {
        return true;
    }
    bin >= n
}

// Whether this bin of n places is usable; too many places are refused whatever the bin.
#[tactic(auto, unfolding(crate::specs::Judged::judged))]
pub fn judge(n: usize, bin: usize) -> Result<bool, Refusal>
    ensures { result ≡ judged n bin }
{
    let unusable = is_unusable(n, bin);
    if n > LONGEST {
        return Err(Refusal::TooLong);
    }
    Ok(!unusable)
}
