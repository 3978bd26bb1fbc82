#![tactic(auto)]
// The whole run on the array (document 01, "The array", and document 02 (vi) and (vii)).
ghost use Rattle.std.specs.Prelude.{◌≡◌};
ghost use Rattle.runs.specs.Outcome.{outcome};
ghost use Rattle.array_run.specs.Whole.{completion_answered, whole_of};

use crate::whole::WholeRun;
use refusal::Refusal;

mod advance;
mod ending;
mod whole;

// What a whole run reports: the numbers of sweeps and of ticks that it made and of the pairs met that had a rounded root.
#[derive(Clone, Copy, PartialEq, Eq, Debug)]
pub struct WholeReport {
    pub sweeps: usize,
    pub ticks: usize,
    pub rounded: usize,
}

// Runs a number of sweeps on a matrix of order n by the array, or fewer where one is quiet, and leaves the last matrix and the eigenvectors in
// the two results.
pub fn run(
    n: usize,
    sweeps: usize,
    matrix: &[f64],
    res: &mut [f64],
    vectors: &mut [f64],
) -> Result<WholeReport, Refusal>
    ensures { outcome (completion_answered result) res.new vectors.new
        ≡ whole_of n sweeps matrix.now res.old vectors.old }
{
    runs::verdict(n, sweeps, matrix, res.len(), vectors.len())?;
    let mut run = WholeRun::start(n, sweeps, matrix);
    run.to_the_end();
    run.hand_over(res, vectors)
}
