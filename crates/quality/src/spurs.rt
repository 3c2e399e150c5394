// The largest magnitude beside the fundamental.
ghost use Rattle.std.specs.Prelude.{◌≡◌};
ghost use Rattle.quality.specs.Quality.{spur_at, spur_of};

// The largest so far with the place i: the fundamental is no spur.
#[tactic(auto, unfolding(crate::specs::Quality::spur_at))]
fn spur(bin: usize, best: f32, i: usize, x: f32) -> f32
    ensures { result ≡ spur_at bin best i x x }
{
    if i == bin {
        return best;
    }
    passes::parts::raised(best, x)
}

// The largest spur of the places from 1 on.
#[tactic(auto, unfolding(laws::specs::Walks::pairs, crate::specs::Quality::spur_of))]
pub fn largest_spur(spectrum: &[f32], bin: usize) -> f32
    ensures { result ≡ spur_of spectrum.now bin }
{
    let mut best = 0.0;
    for i in 1..spectrum.len() {
        best = spur(bin, best, i, spectrum[i]);
    }
    best
}
