// An answer of `power` as it crosses the boundary.
ghost use Rattle.std.specs.Prelude.{◌≡◌};
ghost use Rattle.crossing.specs.PowerCrossing.{coded_power};

use answers::{Refusal, number_of};
use power::Power;

// The number of the call's outcome, and the record.
#[repr(C)]
#[derive(Clone, Copy)]
pub struct CodedPower {
    pub code: u8,
    pub power: Power,
}

impl From<Result<Power, Refusal>> for CodedPower {
    ghost from_gives = { λ a coded. coded ≡ coded_power a };

    fn from(a: Result<Power, Refusal>) -> CodedPower {
        match a {
            Ok(power) => CodedPower { code: 0, power },
            Err(refusal) => CodedPower {
                code: number_of(refusal),
                power: power::ZERO,
            },
        }
    }
}
