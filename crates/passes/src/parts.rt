// One sample more, and passes over samples: extremes by strict comparison, counts, and whether all samples are numbers.
ghost use Rattle.std.specs.Prelude.{◌≡◌, cond, ◌+◌, ◌≤◌, ◌<◌, length};
ghost use Rattle.laws.specs.Samples.{higher, lower, all_numbers, numbers_in};

// x where it is strictly above m, and m elsewhere: a NaN never replaces m.
#[tactic(auto, unfolding(laws::specs::Samples::higher))]
pub fn raised(m: f32, x: f32) -> f32
    ensures { result ≡ higher m x }
{
    if m < x { x } else { m }
}

// x where it is strictly below m, and m elsewhere.
#[tactic(auto, unfolding(laws::specs::Samples::lower))]
pub fn lowered(m: f32, x: f32) -> f32
    ensures { result ≡ lower m x }
{
    if x < m { x } else { m }
}

// One more where the test holds.
pub fn tallied(n: u32, holds: bool) -> u32
    requires { n < 4294967295 }
    ensures { result ≡ cond holds (n + 1) n }
{
    if holds { n + 1 } else { n }
}

// Whether none of so many samples from a place on is a NaN: where it holds, `as f64` is defined at each, and a loop over them needs no test of its own.
// (Each sample is looked at: so the compiler takes several at a time, and nothing waits for a test.)
pub fn numbers_in(samples: &[f32], from: usize, count: usize) -> bool
    requires { (from + count ≤ length samples.now) × (count < 4294967295) }
    ensures { result ≡ numbers_in samples.now from count }
{
    samples[from..from + count]
        .iter()
        .fold(true, |all, &x| all & (x == x))
}

// Whether no sample is a NaN.
#[tactic(auto, unfolding(laws::specs::Samples::all_numbers))]
pub fn all_numbers(samples: &[f32]) -> bool
    requires { length samples.now < 4294967295 }
    ensures { result ≡ all_numbers samples.now }
{
    numbers_in(samples, 0, samples.len())
}
