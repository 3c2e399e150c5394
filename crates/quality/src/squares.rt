// Sums of squares, as far as they can be taken several places at a time.
ghost use Rattle.std.specs.Prelude.{◌≡◌, ℕ, ◌+◌, ◌≤◌, true, false, length, EachIndex, slice_index_or};
ghost use Rattle.std.specs.Float.{nan};
ghost use Rattle.std.specs.Float.Ieee.{eq, ne};
ghost use Rattle.laws.specs.Samples.{numbers_in, square_of};
ghost use Rattle.quality.specs.Powers.{Inside, Summed, squares_at_once, with_squares};

// The square of a magnitude, as an f64.
pub fn square(x: f32) -> f64
    ensures { result ≡ square_of x }
{
    let m = std::num::f32_to_f64_with_nan(x);
    m * m
}

// So many places are tested together and then added: enough for the compiler to test four at a time, and for the tests to run beside the sums.
const BLOCK: usize = 64;

// A sum so far, and the order that comes next.
#[derive(Clone, Copy)]
pub struct Tally {
    pub sum: f64,
    pub order: usize,
}

// Whether all four are numbers: one test for four places, so that the loop over them has time to spare beside its sums.
fn numbers(four: &[f32; 4]) -> bool
    ensures { result ≡ true → EachIndex four.now (λ k. eq (slice_index_or four.now k nan) (slice_index_or four.now k nan) ≡ true) }
{
    four.iter().all(|&x| x == x)
}

// The square of a magnitude that is a number, so that widening it needs no choice.
fn square_of_number(x: f32) -> f64
    requires { ne x x ≡ false }
    ensures { result ≡ square_of x }
{
    let m = x as f64;
    m * m
}

// The sum with the squares of a block of numbers from a place on.
#[tactic(auto, unfolding(laws::specs::Walks::over, crate::specs::Powers::with_squares))]
fn with_block(spectrum: &[f32], from: usize, start: f64) -> f64
    requires squares_at_once_in_bounds { from + squares_at_once ≤ length spectrum.now }
    requires squares_at_once_value { numbers_in spectrum.now from squares_at_once ≡ true }
    ensures { result ≡ with_squares spectrum.now from start squares_at_once }
{
    let mut sum = start;
    for &x in &spectrum[from..from + BLOCK] {
        sum += square_of_number(x);
    }
    sum
}

// Of bin 1, whose multiples are all places from the first on: their power, a block a turn, up to the last whole block or the first that holds a NaN.
// Of another bin, nothing yet.
#[tactic(auto, using(crate::proofs::Orders::summed_none))]
pub fn power_of_blocks(spectrum: &[f32], bin: usize, first: usize) -> Tally
    requires { Inside (length spectrum.now) bin first }
    ensures { Summed spectrum.now bin first result.sum result.order }
{
    let mut sum: f64 = 0.0;
    let mut h = first;
    if bin != 1 {
        return Tally { sum, order: h };
    }
    // not over `chunks`: the order that the last block leaves is what comes next
    while h + BLOCK <= spectrum.len() {
        if !passes::parts::numbers_in(spectrum, h, BLOCK) {
            break;
        }
        sum = with_block(spectrum, h, sum);
        h += BLOCK;
    }
    Tally { sum, order: h }
}

// A sum so far and the multiples that follow, four orders a turn, up to the last four inside or the first four that hold a NaN.
pub fn power_of_fours(spectrum: &[f32], bin: usize, start: Tally) -> Tally
    requires { Inside (length spectrum.now) bin start.order }
    ensures { (first : ℕ) → Summed spectrum.now bin first start.sum start.order → Summed spectrum.now bin first result.sum result.order }
{
    let mut sum = start.sum;
    let mut h = start.order;
    // the last multiple is below five times the length, since the order before h was inside
    while bin * (h + 3) < spectrum.len() {
        let four = [
            spectrum[bin * h],
            spectrum[bin * (h + 1)],
            spectrum[bin * (h + 2)],
            spectrum[bin * (h + 3)],
        ];
        if !numbers(&four) {
            break;
        }
        sum += square_of_number(four[0]);
        sum += square_of_number(four[1]);
        sum += square_of_number(four[2]);
        sum += square_of_number(four[3]);
        h += 4;
    }
    Tally { sum, order: h }
}
