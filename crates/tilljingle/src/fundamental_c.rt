// Active and reactive power of the fundamental.
ghost use Rattle.std.specs.Prelude.{◌≡◌};
ghost use Rattle.fundamental.specs.Fundamental.{fundamental_answer};
ghost use Rattle.crossing.specs.FundamentalCrossing.{coded_fundamental};

use crossing::fundamentals::CodedFundamental;

#[unsafe(no_mangle)]
pub extern "C" fn tj_fundamental_power(
    voltage: &[f32],
    current: &[f32],
    bin: usize,
) -> CodedFundamental
    ensures { result ≡ coded_fundamental (fundamental_answer voltage.now current.now bin) }
{
    fundamental::fundamental_power(voltage, current, bin).into()
}
