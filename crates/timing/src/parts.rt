// What frequency and slew rate are made of; the time figures are made of it too.
ghost use Rattle.std.specs.Prelude.{◌≡◌, ◌+◌, ◌-◌, ◌<◌, ◌≤◌, true, length};
ghost use Rattle.answers.specs.Numbers.{longest};
ghost use Rattle.laws.specs.Samples.{unsigned};
ghost use Rattle.timing.specs.Timing.{total_of, narrowed_mean, rises_at, crossings_of, frequency_from, frequency_about, slew_step, steepest_of, slew_of};
ghost use Rattle.timing.specs.Steps.{NextAbove};

use number::parts::counted;
use passes::parts::tallied;

// The sum of the samples, in the order of the index.
pub fn total(samples: &[f32]) -> f64
    ensures { result ≡ total_of samples.now }
{
    samples
        .iter()
        .fold(0.0, |sum, &x| sum + std::num::f32_to_f64_with_nan(x))
}

// A sum over n samples as a mean, narrowed once.
#[tactic(auto, unfolding(crate::specs::Timing::narrowed_mean))]
pub fn mean(total: f64, n: usize) -> f32
    requires { n ≤ longest }
    ensures { result ≡ narrowed_mean total n }
{
    number::narrow(total / n as f64)
}

// The rising crossings so far: how many, and the places of the first and the last.
#[derive(Clone, Copy, Drop)]
pub struct Crossings {
    pub count: usize,
    pub first: usize,
    pub last: usize,
}

// Whether the samples rise through the mean from one to the next.
#[tactic(auto, unfolding(crate::specs::Timing::rises_at))]
fn rises(mean: f32, prev: f32, curr: f32) -> bool
    ensures { result ≡ rises_at mean prev curr }
{
    prev - mean < 0.0 && curr - mean >= 0.0
}

// How many rising crossings of this mean there are. (The places are found apart: so the compiler takes four samples at a time here. By index, here and below:
// `crossings_of` numbers the places, and over `windows(2)` each of these needs a contract of its own for the place before.)
#[tactic(auto, unfolding(laws::specs::Walks::pairs, crate::specs::Timing::crossings_of))]
fn count_crossings(samples: &[f32], mean: f32) -> u32
    requires { length samples.now ≤ longest }
    ensures { result ≡ (crossings_of mean samples.now).count }
{
    let mut n = 0;
    for i in 1..samples.len() {
        n = tallied(n, rises(mean, samples[i - 1], samples[i]));
    }
    n
}

// The place of the first crossing, looked for from the front; 0 where there is none.
#[tactic(auto, unfolding(laws::specs::Walks::pairs, crate::specs::Timing::crossings_of))]
fn first_crossing(samples: &[f32], mean: f32) -> usize
    ensures { result ≡ (crossings_of mean samples.now).first }
{
    for i in 1..samples.len() {
        if rises(mean, samples[i - 1], samples[i]) {
            return i;
        }
    }
    0
}

// The place of the last crossing, looked for from the end; 0 where there is none.
#[tactic(auto, unfolding(laws::specs::Walks::pairs, crate::specs::Timing::crossings_of))]
fn last_crossing(samples: &[f32], mean: f32) -> usize
    ensures { result ≡ (crossings_of mean samples.now).last }
{
    for i in (1..samples.len()).rev() {
        if rises(mean, samples[i - 1], samples[i]) {
            return i;
        }
    }
    0
}

// Cycles a second, of two crossings or more.
#[tactic(auto, unfolding(crate::specs::Timing::frequency_from))]
fn frequency_from(s: Crossings, rate: f32) -> f32
    requires { (2 ≤ s.count) × (s.count ≤ longest) × (s.first ≤ s.last) × (s.last ≤ longest) }
    ensures { result ≡ frequency_from s rate }
{
    let cycles = counted(s.count - 1);
    let span = counted(s.last - s.first);
    cycles * rate / span
}

// The frequency by the rising crossings of this mean.
#[tactic(auto, using(crate::proofs::Whole::few_crossings))]
pub fn frequency(samples: &[f32], mean: f32, rate: f32) -> f32
    requires { length samples.now ≤ longest }
    ensures { result ≡ frequency_about mean samples.now rate }
{
    let count = count_crossings(samples, mean);
    if count < 2 {
        return 0.0;
    }
    let first = first_crossing(samples, mean);
    let last = last_crossing(samples, mean);
    let s = Crossings {
        count: count as usize,
        first,
        last,
    };
    frequency_from(s, rate)
}

// The size of the step from one sample to the next.
fn step(prev: f32, curr: f32) -> f32
    ensures { result ≡ slew_step prev curr }
{
    number::abs32(curr - prev)
}

// The next place from here on whose step is above w, or the end. (A search: no step waits for the one before it, and none is divided.)
fn next_above(samples: &[f32], w: f32, from: usize) -> usize
    requires { (1 ≤ from) × (from - 1 ≤ length samples.now - 1) }
    ensures { NextAbove samples.now w from result }
{
    for i in from..samples.len() {
        if step(samples[i - 1], samples[i]) > w {
            return i;
        }
    }
    // an empty slice ends before `from`
    samples.len().max(from)
}

// The largest slew rate over all neighbours, dt apart: only a step above all before it can be steeper.
fn steepest(samples: &[f32], dt: f32) -> f32
    requires { unsigned dt ≡ true }
    ensures { result ≡ steepest_of dt samples.now }
{
    let mut m: f32 = 0.0;
    let mut i = next_above(samples, 0.0, 1);
    // no `for`: each search says where the next begins
    while i < samples.len() {
        let w = step(samples[i - 1], samples[i]);
        m = passes::parts::raised(m, w / dt);
        i = next_above(samples, w, i + 1);
    }
    m
}

// The largest slew rate at this many samples a second.
#[tactic(auto, using(crate::proofs::Steepness::time_unsigned), unfolding(crate::specs::Timing::slew_of))]
pub fn slew(samples: &[f32], rate: f32) -> f32
    ensures { result ≡ slew_of samples.now rate }
{
    if rate <= 0.0 {
        return 0.0;
    }
    steepest(samples, 1.0 / rate)
}
