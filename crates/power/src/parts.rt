// How a call that reads two slices ends, and the record of a capture from its sums.
ghost use Rattle.std.specs.Prelude.{◌≡◌, ◌≤◌};
ghost use Rattle.power.specs.Power.{above_zero, nonactive_of, record_of, outcome_of};
ghost use Rattle.answers.specs.Numbers.{longest};
ghost use Rattle.laws.specs.Quotients.{ratio_or_zero};

use crate::Power;
use answers::{LONGEST, Refusal};

// The refusals in their order, of so many volts and amps: with 3 where a slice is longer than LONGEST, and then with 1 where the lengths differ.
pub fn judged(volts: usize, amps: usize) -> Result<(), Refusal>
    ensures { result ≡ outcome_of volts amps }
{
    if volts > LONGEST {
        return Err(Refusal::TooLong);
    }
    if amps > LONGEST {
        return Err(Refusal::TooLong);
    }
    if volts != amps {
        return Err(Refusal::LengthsDiffer);
    }
    Ok(())
}

// The sums over `count` pairs: of the products, of the voltage's squares and of the current's.
#[derive(Clone, Copy)]
pub struct Sums {
    pub vi: f64,
    pub vv: f64,
    pub ii: f64,
    pub count: usize,
}

// The power factor; 0 where s is at most 1e-12, or is not a number.
#[tactic(auto, unfolding(laws::specs::Quotients::ratio_or_zero))]
fn factor(p: f32, s: f32) -> f32
    ensures { result ≡ ratio_or_zero p s }
{
    if s > 1e-12 { p / s } else { 0.0 }
}

// x where it is above 0, and 0 elsewhere, at a NaN too.
#[tactic(auto, unfolding(crate::specs::Power::above_zero))]
fn above_zero(x: f64) -> f64
    ensures { result ≡ above_zero x }
{
    if x > 0.0 { x } else { 0.0 }
}

// Nonactive power: the root of s² - p².
#[tactic(auto, unfolding(crate::specs::Power::nonactive_of))]
fn nonactive(p: f32, s: f32) -> f32
    ensures { result ≡ nonactive_of p s }
{
    let p64 = std::num::f32_to_f64_with_nan(p);
    let s64 = std::num::f32_to_f64_with_nan(s);
    number::sqrt64_narrowed(above_zero(s64 * s64 - p64 * p64))
}

// The record of a capture with these sums.
#[tactic(auto, unfolding(crate::specs::Power::record_of, crate::specs::Power::active_of, crate::specs::Power::apparent_of, crate::specs::Power::mean64))]
pub fn of_sums(t: Sums) -> Power
    requires { t.count ≤ longest }
    ensures { result ≡ record_of t }
{
    let n = t.count as f64;
    let p = number::narrow(t.vi / n);
    let s = number::sqrt64_narrowed(t.vv / n) * number::sqrt64_narrowed(t.ii / n);
    let nonactive = nonactive(p, s);
    let pf = factor(p, s);
    Power {
        p,
        nonactive,
        s,
        pf,
    }
}
