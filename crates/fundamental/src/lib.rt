// Active and reactive power of one bin of a voltage and a current that were sampled together: at the fundamental's bin, the power that the fundamental carries.
// The contract cites `specs/Fundamental.antt`.
#![tactic(auto)]

ghost use Rattle.std.specs.Prelude.{◌≡◌, ◌<◌, ◌≤◌, true, length};
ghost use Rattle.spectrum.specs.Grid.{on_grid};
ghost use Rattle.spectrum.specs.Bin.{sums_of};
ghost use Rattle.fundamental.specs.Fundamental.{scaled_of, fundamental_figures, fundamental_of, fundamental_outcome, fundamental_answer};

use answers::{LONGEST, Refusal};
use spectrum::parts::{NO_SUMS, Sums, on_grid, turn};

#[derive(Clone, Copy)]
pub struct FundamentalPower {
    pub active: f32,
    pub reactive: f32,
}

// What the C boundary shows where a call is refused.
pub const ZERO: FundamentalPower = FundamentalPower {
    active: 0.0,
    reactive: 0.0,
};

// The refusals in their order, of so many volts and amps and a bin: 3, 1, 4, 8.
#[tactic(auto, unfolding(crate::specs::Fundamental::fundamental_outcome))]
fn judged(volts: usize, amps: usize, bin: usize) -> Result<(), Refusal>
    ensures { result ≡ fundamental_outcome volts amps bin }
{
    if volts > LONGEST {
        return Err(Refusal::TooLong);
    }
    if amps > LONGEST {
        return Err(Refusal::TooLong);
    }
    if volts != amps {
        return Err(Refusal::LengthsDiffer);
    }
    if !on_grid(volts) {
        return Err(Refusal::OffGrid);
    }
    let inside = (bin > 0) & (bin < volts / 2);
    if !inside {
        return Err(Refusal::BinOutside);
    }
    Ok(())
}

// The sums of one bin, of the voltage and of the current.
#[derive(Clone, Copy)]
pub struct Both {
    pub voltage: Sums,
    pub current: Sums,
}

// The sums of bin k of both captures in one walk: each sine and cosine is read once, and each capture's sums are its own, in index order.
fn both_sums(voltage: &[f32], current: &[f32], k: usize) -> Both
    requires voltage_value { on_grid (length voltage.now) ≡ true }
    requires voltage_len { length voltage.now ≡ length current.now }
    requires k_in_bounds { k < length voltage.now }
    ensures { (result.voltage ≡ sums_of voltage.now k) × (result.current ≡ sums_of current.now k) }
{
    let n = voltage.len();
    let by = k * (4096 / n);
    let mut v = NO_SUMS;
    let mut i = NO_SUMS;
    let mut angle: usize = 0;
    for (volt, amp) in voltage.iter().zip(current) {
        let cosine = quarter::parts::cosine(angle);
        let sine = quarter::parts::sine(angle);
        let x = std::num::f32_to_f64_with_nan(*volt);
        let y = std::num::f32_to_f64_with_nan(*amp);
        v = turn(v, x, cosine, sine);
        i = turn(i, y, cosine, sine);
        angle = (angle + by) % 4096;
    }
    Both {
        voltage: v,
        current: i,
    }
}

// 2 x / n², narrowed.
fn scaled(x: f64, n: usize) -> f32
    requires { n ≤ 4096 }
    ensures { result ≡ scaled_of x n }
{
    let m = n as f64;
    number::narrow(x * 2.0 / (m * m))
}

// The two figures of n pairs from the sums v of the voltage and i of the current.
fn figures(v: Sums, i: Sums, n: usize) -> FundamentalPower
    requires { n ≤ 4096 }
    ensures { result ≡ fundamental_figures v i n }
{
    FundamentalPower {
        active: scaled(v.real * i.real + v.imag * i.imag, n),
        reactive: scaled(v.imag * i.real - v.real * i.imag, n),
    }
}

// The two figures of bin k.
fn of_bin(voltage: &[f32], current: &[f32], k: usize) -> FundamentalPower
    requires voltage_value { on_grid (length voltage.now) ≡ true }
    requires voltage_len { length voltage.now ≡ length current.now }
    requires k_in_bounds { k < length voltage.now }
    ensures { result ≡ fundamental_of voltage.now current.now k }
{
    let sums = both_sums(voltage, current, k);
    figures(sums.voltage, sums.current, voltage.len())
}

// Refused with 3 where a slice is longer than LONGEST, then with 1 where the lengths differ, with 4 where the length is off the grid, and with 8 where the bin
// is 0 or not below half the length.
#[tactic(auto, using(answers::proofs::Ended::given_done, answers::proofs::Ended::given_refused, crate::proofs::Ends::unrefused), unfolding(crate::specs::Fundamental::fundamental_answer))]
pub fn fundamental_power(
    voltage: &[f32],
    current: &[f32],
    bin: usize,
) -> Result<FundamentalPower, Refusal>
    ensures { result ≡ fundamental_answer voltage.now current.now bin }
{
    judged(voltage.len(), current.len(), bin)?;
    Ok(of_bin(voltage, current, bin))
}
