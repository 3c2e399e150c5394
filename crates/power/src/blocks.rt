// The sums of a capture of numbers, a block of 32 pairs at a time: one loop works out the products, several at once where the processor can, and another
// adds them up in index order. The last block is shorter; a block's length that the compiler knew would have it merge the two loops.
ghost use Rattle.std.specs.Prelude.{◌≡◌, ◌+◌, ◌≤◌, true, length};
ghost use Rattle.laws.specs.Filled.{filled};
ghost use Rattle.laws.specs.Samples.{all_numbers};
ghost use Rattle.answers.specs.Numbers.{longest};
ghost use Rattle.power.specs.Power.{capture_sums};
ghost use Rattle.power.specs.Blocks.{product_from, added};

use crate::parts::Sums;

// The products of a block's pairs, in the first places of each array.
#[derive(Clone, Copy)]
struct Block {
    vi: [f64; 32],
    vv: [f64; 32],
    ii: [f64; 32],
}

// The products of the pairs from a place on, put into a block.
#[tactic(auto, unfolding(laws::specs::Filled::filled))]
fn products(voltage: &[f32], current: &[f32], from: usize, count: usize, block: &mut Block)
    requires voltage_len { length voltage.now ≡ length current.now }
    requires count_in_bounds { from + count ≤ length voltage.now }
    requires count_bound { count ≤ 32 }
    requires voltage_value { all_numbers voltage.now ≡ true }
    requires current_value { all_numbers current.now ≡ true }
    ensures vi_after { block.new.vi ≡ filled (product_from voltage.now current.now from) count block.old.vi }
    ensures vv_after { block.new.vv ≡ filled (product_from voltage.now voltage.now from) count block.old.vv }
    ensures ii_after { block.new.ii ≡ filled (product_from current.now current.now from) count block.old.ii }
{
    for j in 0..count {
        let v = voltage[from + j] as f64;
        let i = current[from + j] as f64;
        block.vi[j] = v * i;
        block.vv[j] = v * v;
        block.ii[j] = i * i;
    }
}

// The sums with the first products of each array added, in index order.
#[tactic(auto, using(laws::proofs::Turn::over_next), unfolding(laws::specs::Walks::over))]
fn sums_with(t: Sums, count: usize, block: &Block) -> Sums
    requires count_bound { count ≤ 32 }
    requires count_le_longest { t.count ≤ longest }
    ensures { result ≡ added t count block.now.vi block.now.vv block.now.ii }
{
    let Sums {
        mut vi,
        mut vv,
        mut ii,
        ..
    } = t;
    for j in 0..count {
        vi += block.vi[j];
        vv += block.vv[j];
        ii += block.ii[j];
    }
    Sums {
        vi,
        vv,
        ii,
        count: t.count + count,
    }
}

#[tactic(auto, unfolding(crate::specs::Power::sum_to))]
pub fn sums_of_numbers(voltage: &[f32], current: &[f32]) -> Sums
    requires voltage_len { length voltage.now ≡ length current.now }
    requires voltage_len_bound { length voltage.now ≤ longest }
    requires voltage_value { all_numbers voltage.now ≡ true }
    requires current_value { all_numbers current.now ≡ true }
    ensures { result ≡ capture_sums voltage.now current.now (length voltage.now) }
{
    let mut block = Block {
        vi: [0.0; 32],
        vv: [0.0; 32],
        ii: [0.0; 32],
    };
    let mut t = Sums {
        vi: 0.0,
        vv: 0.0,
        ii: 0.0,
        count: 0,
    };
    let mut k = 0;
    // not over `chunks`: `product_from` counts from a place of the whole slices
    while k < voltage.len() {
        let count = (voltage.len() - k).min(32);
        products(voltage, current, k, count, &mut block);
        t = sums_with(t, count, &block);
        k += count;
    }
    t
}
