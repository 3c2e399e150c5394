// An offset, a factor, and the sum of two signals.
ghost use Rattle.std.specs.Prelude.{◌≡◌};
ghost use Rattle.answers.specs.Numbers.{number_of};
ghost use Rattle.answers.specs.Left.{left, answered_as};
ghost use Rattle.samples.specs.Samples.{offset_by, scaled_by, added_into};

#[unsafe(no_mangle)]
pub extern "C" fn tj_add_dc_offset(samples: &mut [f32], offset: f32) -> u8
    ensures { left result samples.new ≡ answered_as number_of (offset_by offset samples.old) }
{
    answers::code_of(samples::add_dc_offset(samples, offset))
}

#[unsafe(no_mangle)]
pub extern "C" fn tj_scale(samples: &mut [f32], factor: f32) -> u8
    ensures { left result samples.new ≡ answered_as number_of (scaled_by factor samples.old) }
{
    answers::code_of(samples::scale(samples, factor))
}

#[unsafe(no_mangle)]
pub extern "C" fn tj_add_signals(a: &[f32], b: &[f32], output: &mut [f32]) -> u8
    ensures { left result output.new ≡ answered_as number_of (added_into a.now b.now output.old) }
{
    answers::code_of(samples::add_signals(a, b, output))
}
