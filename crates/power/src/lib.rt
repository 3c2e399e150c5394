// Active, nonactive and apparent power, and the power factor, of a voltage and a current that were sampled together.
// The contract cites `specs/Power.antt`.
#![tactic(auto)]

ghost use Rattle.std.specs.Prelude.{◌≡◌, ◌≤◌, length};
ghost use Rattle.answers.specs.Numbers.{longest};
ghost use Rattle.power.specs.Power.{nan_power, power_of, answer_of};

use answers::Refusal;

mod blocks;
pub mod parts;

// Laid out as C does, to cross its boundary as it is.
#[repr(C)]
#[derive(Clone, Copy)]
pub struct Power {
    pub p: f32,
    pub nonactive: f32,
    pub s: f32,
    pub pf: f32,
}

// What an empty pair of slices answers; the C boundary shows it at a refusal too.
pub const ZERO: Power = Power {
    p: 0.0,
    nonactive: 0.0,
    s: 0.0,
    pf: 0.0,
};

// Of a capture that holds a NaN: every sum with that sample is a NaN, and so are p and s.
fn of_nan() -> Power
    ensures { result ≡ nan_power }
{
    Power {
        p: 0.0 / 0.0,
        nonactive: 0.0,
        s: 0.0 / 0.0,
        pf: 0.0,
    }
}

// The record of a capture, ZERO where it is empty. One pass over each slice looks for a NaN, so that the loops over numbers widen them without a choice.
fn of_capture(voltage: &[f32], current: &[f32]) -> Power
    requires voltage_len { length voltage.now ≡ length current.now }
    requires voltage_len_bound { length voltage.now ≤ longest }
    ensures { result ≡ power_of voltage.now current.now }
{
    if voltage.len() == 0 {
        return ZERO;
    }
    if !passes::parts::all_numbers(voltage) {
        return of_nan();
    }
    if !passes::parts::all_numbers(current) {
        return of_nan();
    }
    parts::of_sums(blocks::sums_of_numbers(voltage, current))
}

// Refused with 3 where a slice is longer than LONGEST, and then with 1 where the lengths differ. The sample rate is not used.
#[tactic(auto, using(crate::proofs::Refusals::together, crate::proofs::Refusals::refused, crate::proofs::Refusals::measured))]
pub fn compute_power(voltage: &[f32], current: &[f32], sample_rate: f32) -> Result<Power, Refusal>
    ensures { result ≡ answer_of voltage.now current.now }
{
    parts::judged(voltage.len(), current.len())?;
    Ok(of_capture(voltage, current))
}
