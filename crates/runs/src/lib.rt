#![tactic(auto)]
// What the plain run and the array's run share: the refusals before a run, the identity, which processor is always still, what a processor counts.
ghost use Rattle.std.specs.Prelude.{◌≡◌};
ghost use Rattle.refusal.specs.Answers.{answered};
ghost use Rattle.runs.specs.State.{identity};
ghost use Rattle.runs.specs.Blocks.{ruled_found};
ghost use Rattle.runs.specs.Counts.{is_turn, counted, begins_sweep, counts_after};
ghost use Rattle.runs.specs.Outcome.{before_run};

use refusal::Refusal;
use rotation::{Found, Parameters};
use sizes::MOST_COUNTED;

// What a processor counts: its turns in the current sweep, and its pairs with a rounded root in the whole run.
#[derive(Clone, Copy)]
pub struct Counts {
    pub turns: u16,
    pub rounded: u16,
}

// Refusals 1, 2, 3, 5 and 6 of a run whose two results have the lengths first and second.
#[tactic(auto, using(crate::proofs::Verdicts::run_tests))]
pub fn verdict(
    n: usize,
    sweeps: usize,
    matrix: &[f64],
    first: usize,
    second: usize,
) -> Result<(), Refusal>
    ensures { answered result ≡ before_run n sweeps matrix.now first second }
{
    sizes::tested(n, sweeps)?;
    if !(matrix::is_square(n, first) && matrix::is_square(n, second)) {
        return Err(Refusal::Length);
    }
    matrix::tested(n, matrix)
}

// The entry of the identity in row r and column c.
#[tactic(auto, unfolding(crate::specs::State::identity))]
pub fn identity(r: usize, c: usize) -> f64
    ensures { result ≡ identity r c }
{
    if r == c { 1.0 } else { 0.0 }
}

// What processor i, from 0, turns by in a run of order n, and whether it counts as exact, where this is found of its pair.
#[tactic(auto, unfolding(crate::specs::Blocks::ruled, crate::specs::Blocks::ruled_exact))]
pub fn ruled(n: usize, i: usize, found: Found) -> Found
    ensures { result ≡ ruled_found n i found }
{
    if i < sizes::still_of(n) {
        Found {
            parameters: Parameters::Still,
            exact: true,
        }
    } else {
        found
    }
}

// Whether a pair with these parameters is turned.
pub fn is_turn(parameters: Parameters) -> bool
    ensures { result ≡ is_turn parameters }
{
    matches!(parameters, Parameters::Turn(..))
}

// The counts of a processor after a step in which this is found of its pair.
#[tactic(auto, unfolding(crate::specs::Counts::turns_after, crate::specs::Counts::rounded_after))]
pub fn counts_after(n: usize, step: usize, found: Found, before: Counts) -> Counts
    ensures { result ≡ counts_after n step found before }
{
    let turns = if begins_sweep(n, step) {
        0
    } else {
        before.turns
    };
    Counts {
        turns: counted(is_turn(found.parameters), turns),
        rounded: counted(!found.exact, before.rounded),
    }
}

// One more than the count, where `more` says so; at most the most.
#[tactic(auto, unfolding(crate::specs::Counts::counted))]
fn counted(more: bool, count: u16) -> u16
    ensures { result ≡ counted more count }
{
    if more && count < MOST_COUNTED {
        count + 1
    } else {
        count
    }
}

// Whether a step, from 0, is the first of a sweep. Order 0 has no steps in a sweep.
#[tactic(auto, unfolding(crate::specs::Counts::begins_sweep))]
fn begins_sweep(n: usize, step: usize) -> bool
    ensures { result ≡ begins_sweep n step }
{
    step.is_multiple_of(sizes::sweep_steps(n))
}
