// Rise and fall between a tenth and nine tenths of the swing.
ghost use Rattle.std.specs.Prelude.{◌≡◌, ◌≤◌, ◌<◌, length};
ghost use Rattle.answers.specs.Numbers.{longest};
ghost use Rattle.figures.specs.Edges.{rise_begins, rise_counts, fall_begins, fall_counts, edge_at, edges_of, edges_between, sample_time_of, times_of};

use number::parts::counted;

// Which edge is under way (0 none, RISE or FALL), and how many samples the last of each kind has so far.
// (A number, as `edge_at` of specs/Edges.antt has it, and no bools: a struct with padding, by value in a loop, is copied through the stack at each turn.)
#[derive(Clone, Copy, Drop)]
pub struct Edges {
    pub edge: usize,
    pub rise: usize,
    pub fall: usize,
}

const RISE: usize = 1;

const FALL: usize = 2;

// The first test of a sample: whether a rise begins with it.
#[tactic(auto, unfolding(crate::specs::Edges::rise_begins))]
fn rise_begins(low: f32, s: Edges, prev: f32, curr: f32) -> Edges
    ensures { result ≡ rise_begins low s prev curr }
{
    if prev <= low && curr > low {
        Edges {
            edge: RISE,
            rise: 0,
            fall: s.fall,
        }
    } else {
        s
    }
}

// The second: whether it belongs to the rise under way.
#[tactic(auto, unfolding(crate::specs::Edges::rise_counts))]
fn rise_counts(high: f32, s: Edges, curr: f32) -> Edges
    requires { s.rise < longest }
    ensures { result ≡ rise_counts high s curr }
{
    if s.edge == RISE && curr <= high {
        Edges {
            edge: s.edge,
            rise: s.rise + 1,
            fall: s.fall,
        }
    } else {
        s
    }
}

// The third: whether a fall begins with it.
#[tactic(auto, unfolding(crate::specs::Edges::fall_begins))]
fn fall_begins(high: f32, s: Edges, prev: f32, curr: f32) -> Edges
    ensures { result ≡ fall_begins high s prev curr }
{
    if prev >= high && curr < high {
        Edges {
            edge: FALL,
            rise: s.rise,
            fall: 0,
        }
    } else {
        s
    }
}

// The fourth: whether it belongs to the fall under way.
#[tactic(auto, unfolding(crate::specs::Edges::fall_counts))]
fn fall_counts(low: f32, s: Edges, curr: f32) -> Edges
    requires { s.fall < longest }
    ensures { result ≡ fall_counts low s curr }
{
    if s.edge == FALL && curr >= low {
        Edges {
            edge: s.edge,
            rise: s.rise,
            fall: s.fall + 1,
        }
    } else {
        s
    }
}

// The four tests of one sample, in the Rust's order.
fn edge_at(low: f32, high: f32, s: Edges, prev: f32, curr: f32) -> Edges
    requires { (s.rise < longest) × (s.fall < longest) }
    ensures { result ≡ edge_at low high s 0 prev curr }
{
    let begun = rise_begins(low, s, prev, curr);
    let risen = rise_counts(high, begun, curr);
    let turned = fall_begins(high, risen, prev, curr);
    fall_counts(low, turned, curr)
}

// All samples but the first, each with the one before it. (By places: over `windows(2)` the time figures take a tenth longer, 0.92 of the Rust's time at a sine
// and not 0.83.)
#[tactic(auto, unfolding(laws::specs::Walks::pairs, crate::specs::Edges::edges_of))]
fn find_edges(samples: &[f32], low: f32, high: f32) -> Edges
    requires { length samples.now ≤ longest }
    ensures { result ≡ edges_of low high samples.now }
{
    let mut s = Edges {
        edge: 0,
        rise: 0,
        fall: 0,
    };
    for i in 1..samples.len() {
        s = edge_at(low, high, s, samples[i - 1], samples[i]);
    }
    s
}

// The time from one of n samples to the next.
#[tactic(auto, unfolding(crate::specs::Edges::sample_time_of))]
fn sample_time(frequency: f32, n: usize) -> f32
    requires { n ≤ longest }
    ensures { result ≡ sample_time_of frequency n }
{
    let count = counted(n);
    if frequency > 0.0 {
        1.0 / (frequency * count)
    } else {
        1.0 / count
    }
}

// How long the last rise and the last fall took.
#[derive(Clone, Copy, Drop)]
pub struct Times {
    pub rise: f32,
    pub fall: f32,
}

// With the thresholds a tenth and nine tenths of the swing above the minimum.
#[tactic(auto, using(crate::proofs::Bounds::rise_le, crate::proofs::Bounds::fall_le), unfolding(crate::specs::Edges::times_of))]
pub fn times_of(samples: &[f32], min: f32, swing: f32, frequency: f32) -> Times
    requires { length samples.now ≤ longest }
    ensures { result ≡ times_of (edges_between min swing samples.now) frequency (length samples.now) }
{
    let edges = find_edges(samples, min + 0.1 * swing, min + 0.9 * swing);
    let tick = sample_time(frequency, samples.len());
    let rise = counted(edges.rise);
    let fall = counted(edges.fall);
    Times {
        rise: rise * tick,
        fall: fall * tick,
    }
}
