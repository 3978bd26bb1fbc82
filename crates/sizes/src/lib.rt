#![tactic(auto)]
// The sizes of documents 01 and 02, and their limits.
ghost use Rattle.std.specs.Prelude.{◌≡◌, true, ◌≤◌};
ghost use Rattle.refusal.specs.Answers.{answered};
ghost use Rattle.sizes.specs.Sizes.{most_sweeps, is_order, processors_of, sweep_steps, first_line, still_of, steps_of, ticks_of, sizes_answer};

use refusal::Refusal;

// The most processors, and so the most tiles in a row of the array.
pub const MOST_PROCESSORS: usize = 16;

// The largest order.
pub const LARGEST_ORDER: usize = 2 * MOST_PROCESSORS;

// The most sweeps.
pub const MOST_SWEEPS: usize = 16;

// The most that a tile counts to.
pub const MOST_COUNTED: u16 = 65535;

// The most tiles of an array.
pub const MOST_TILES: usize = MOST_PROCESSORS * MOST_PROCESSORS;

// The most entries of a matrix.
pub const MOST_ENTRIES: usize = LARGEST_ORDER * LARGEST_ORDER;

// Refusals 1 and 2.
#[tactic(auto, unfolding(crate::specs::Sizes::sizes_answer))]
pub fn tested(n: usize, sweeps: usize) -> Result<(), Refusal>
    ensures { answered result ≡ sizes_answer n sweeps }
{
    if !is_order(n) {
        return Err(Refusal::Order);
    }
    if sweeps > MOST_SWEEPS {
        return Err(Refusal::Sweeps);
    }
    Ok(())
}

// Whether n is an order.
#[tactic(auto, unfolding(crate::specs::Sizes::is_order))]
pub fn is_order(n: usize) -> bool
    ensures { result ≡ is_order n }
{
    2 <= n && n <= LARGEST_ORDER
}

// The number of processors.
pub fn processors_of(n: usize) -> usize
    ensures { result ≡ processors_of n }
{
    n.div_ceil(2)
}

// The number of steps in a sweep.
pub fn sweep_steps(n: usize) -> usize
    ensures { result ≡ sweep_steps n }
{
    n.saturating_sub(1) + n % 2
}

// The line in the left register of processor 1 at first.
pub fn first_line(n: usize) -> usize
    ensures { result ≡ first_line n }
{
    1 - n % 2
}

// How many processors, from the first, are always still.
pub fn still_of(n: usize) -> usize
    ensures { result ≡ still_of n }
{
    n % 2
}

// The number of steps in a run.
pub fn steps_of(n: usize, sweeps: usize) -> usize
    requires { (is_order n ≡ true) × (sweeps ≤ most_sweeps) }
    ensures { result ≡ steps_of n sweeps }
{
    sweeps * sweep_steps(n)
}

// The number of ticks in a run.
pub fn ticks_of(n: usize, sweeps: usize) -> usize
    requires { (is_order n ≡ true) × (sweeps ≤ most_sweeps) }
    ensures { result ≡ ticks_of n sweeps }
{
    3 * steps_of(n, sweeps) + processors_of(n)
}
