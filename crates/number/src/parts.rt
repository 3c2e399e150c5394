// What other crates take from the number kit besides its calls.
ghost use Rattle.std.specs.Prelude.{◌≡◌, ◌≤◌};
ghost use Rattle.laws.specs.Literals.{count32};

// A count of at most 2^24 as an f32, exactly.
pub fn counted(n: usize) -> f32
    requires { n ≤ 16777216 }
    ensures { result ≡ count32 n }
{
    n as f32
}
