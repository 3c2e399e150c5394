// Which bin the fundamental has, and whether it is usable.
ghost use Rattle.std.specs.Prelude.{◌≡◌, ◌≤◌};
ghost use Rattle.distortion.specs.Thd as Thd;

// The bin nearest to the frequency, of n samples in one second.
pub fn fundamental_bin(frequency: f32, n: usize) -> usize
    requires { n ≤ 4096 }
    ensures { result ≡ Thd.fundamental_bin frequency n }
{
    let rate = n as f32;
    std::num::saturating_f32_to_usize(number::round32(frequency * rate / rate))
}

#[tactic(auto, unfolding(crate::specs::Thd::usable))]
pub fn usable(frequency: f32, half: usize, bin: usize) -> bool
    ensures { result ≡ Thd.usable frequency half bin }
{
    half > 1 && frequency > 0.0 && bin > 0 && bin < half
}
