// An offset, a factor, and the sum of two signals, place by place.
#![tactic(auto)]

ghost use Rattle.std.specs.Prelude.{◌≡◌, ◌+◌, ◌≤◌, ◌<◌, List, map, Float, length};
ghost use Rattle.answers.specs.Left.{left};
ghost use Rattle.laws.specs.Filled.{filled};
ghost use Rattle.samples.specs.Samples.{each, offset_by, scaled_by, shortest, sum_at, added_into};

use answers::{LONGEST, Refusal};

// So many places are done at once, and then the rest: a run of a known count is straight-line code, and as fast wherever the linker puts the loop around it.
const BLOCK: usize = 32;

// Puts f of each sample of a run in its place.
fn each_of<F: Fn(f32) -> f32>(run: &mut [f32], f: &F)
    ghost one: { Float → Float }
    requires callable { F.IsAlwaysCallable f.now }
    requires value { (x y : Float) → F.post f.now x y → y ≡ one x }
    ensures { run.new ≡ map one run.old }
{
    for x in run.iter_mut() {
        *x = f(*x);
    }
}

// Puts f of each sample in its place, block by block. (By index: of the library's chunks to be written to no clause says what the slice ends as.)
fn each<F: Fn(f32) -> f32>(samples: &mut [f32], f: F) -> Result<(), Refusal>
    ghost one: { Float → Float }
    requires callable { F.IsAlwaysCallable f }
    requires value { (x y : Float) → F.post f x y → y ≡ one x }
    ensures { left result samples.new ≡ each one samples.old }
{
    let n = samples.len();
    if n > LONGEST {
        return Err(Refusal::TooLong);
    }
    let blocks = n / BLOCK;
    for block in 0..blocks {
        let from = block * BLOCK;
        each_of(&mut samples[from..from + BLOCK], &f);
    }
    each_of(&mut samples[blocks * BLOCK..], &f);
    Ok(())
}

// Adds the offset to every sample.
pub fn add_dc_offset(samples: &mut [f32], offset: f32) -> Result<(), Refusal>
    ensures { left result samples.new ≡ offset_by offset samples.old }
{
    each(samples, move |x| x + offset)
}

// Multiplies every sample by the factor.
pub fn scale(samples: &mut [f32], factor: f32) -> Result<(), Refusal>
    ensures { left result samples.new ≡ scaled_by factor samples.old }
{
    each(samples, move |x| x * factor)
}

// The sum at one place.
fn sum_at(a: &[f32], b: &[f32], place: usize) -> f32
    requires { (place < length a.now) × (place < length b.now) }
    ensures { result ≡ sum_at a.now b.now place }
{
    a[place] + b[place]
}

// The sums of four places from a place on, before which all are done. All are read before one is written, so that they are added together: the compiler does not know that the output is neither a nor b.
fn add_four(a: &[f32], b: &[f32], output: &mut [f32], from: usize)
    requires { from + 4 ≤ shortest a.now b.now output.old }
    ensures { (before : List Float) → output.old ≡ filled (sum_at a.now b.now) from before → output.new ≡ filled (sum_at a.now b.now) (from + 4) before }
{
    let w = sum_at(a, b, from);
    let x = sum_at(a, b, from + 1);
    let y = sum_at(a, b, from + 2);
    let z = sum_at(a, b, from + 3);
    output[from] = w;
    output[from + 1] = x;
    output[from + 2] = y;
    output[from + 3] = z;
}

// Puts a[j] + b[j] at place j of the output, up to the shortest of the three lengths. The output is not read, and may have any length.
#[tactic(auto, using(crate::proofs::Adding::first_long, crate::proofs::Adding::second_long))]
pub fn add_signals(a: &[f32], b: &[f32], output: &mut [f32]) -> Result<(), Refusal>
    ensures { left result output.new ≡ added_into a.now b.now output.old }
{
    if a.len() > LONGEST {
        return Err(Refusal::TooLong);
    }
    if b.len() > LONGEST {
        return Err(Refusal::TooLong);
    }
    let n = a.len().min(b.len()).min(output.len());
    let blocks = n / BLOCK;
    for block in 0..blocks {
        for four in 0..BLOCK / 4 {
            add_four(a, b, output, block * BLOCK + four * 4);
        }
    }
    for j in blocks * BLOCK..n {
        output[j] = sum_at(a, b, j);
    }
    Ok(())
}
