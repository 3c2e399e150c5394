// The number kit.
ghost use Rattle.std.specs.Prelude.{◌≡◌};
ghost use Rattle.std.specs.Float.{binary32, binary64};
ghost use Rattle.number.specs.Number as Number;

#[unsafe(no_mangle)]
pub extern "C" fn tj_narrow(x: f64) -> f32
    ensures { result ≡ Number.narrow x }
{
    number::narrow(x)
}

#[unsafe(no_mangle)]
pub extern "C" fn tj_sqrt32(x: f32) -> f32
    ensures { result ≡ Number.root binary32 x }
{
    number::sqrt32(x)
}

#[unsafe(no_mangle)]
pub extern "C" fn tj_sqrt64(x: f64) -> f64
    ensures { result ≡ Number.root binary64 x }
{
    number::sqrt64(x)
}

#[unsafe(no_mangle)]
pub extern "C" fn tj_sqrt64_narrowed(x: f64) -> f32
    ensures { result ≡ Number.narrowed_root x }
{
    number::sqrt64_narrowed(x)
}

#[unsafe(no_mangle)]
pub extern "C" fn tj_abs32(x: f32) -> f32
    ensures { result ≡ Number.abs x }
{
    number::abs32(x)
}

#[unsafe(no_mangle)]
pub extern "C" fn tj_round32(x: f32) -> f32
    ensures { result ≡ Number.round_away binary32 x }
{
    number::round32(x)
}
