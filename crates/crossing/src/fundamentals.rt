// An answer of `fundamental` as it crosses the boundary.
ghost use Rattle.std.specs.Prelude.{◌≡◌};
ghost use Rattle.crossing.specs.FundamentalCrossing.{coded_fundamental};

use answers::{Refusal, number_of};
use fundamental::FundamentalPower;

// The number of the call's outcome, and the two figures.
#[repr(C)]
#[derive(Clone, Copy)]
pub struct CodedFundamental {
    pub code: u8,
    pub active: f32,
    pub reactive: f32,
}

impl From<Result<FundamentalPower, Refusal>> for CodedFundamental {
    ghost from_gives = { λ a coded. coded ≡ coded_fundamental a };

    fn from(a: Result<FundamentalPower, Refusal>) -> CodedFundamental {
        let (code, power) = match a {
            Ok(power) => (0, power),
            Err(refusal) => (number_of(refusal), fundamental::ZERO),
        };
        CodedFundamental {
            code,
            active: power.active,
            reactive: power.reactive,
        }
    }
}
