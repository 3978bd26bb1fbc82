#![tactic(auto)]
// The plain run (document 01, "Pairs and their movement").
ghost use Rattle.std.specs.Prelude.{◌≡◌, ◌*◌, ◌≤◌, length};
ghost use Rattle.matrix.specs.Matrix.{flat};
ghost use Rattle.runs.specs.State.{identity};
ghost use Rattle.runs.specs.Outcome.{outcome};
ghost use Rattle.plain_run.specs.Quiet.{ran_answered, answered_run_of};

use refusal::Refusal;
use sweeps::Matrices;

mod angles;
mod sweeps;

// The sweeps that a run made, and how many pairs met in them had a rounded root.
#[derive(Clone, Copy, Debug, PartialEq, Eq)]
pub struct Report {
    pub sweeps: usize,
    pub rounded: usize,
}

// Runs a number of sweeps on a matrix of order n, or fewer where one of them is quiet, and leaves the last matrix and the eigenvectors in
// the two results. The eigenvectors are rows until all steps are made; the identity is its own transpose.
#[tactic(auto, using(runs::proofs::Verdicts::begins, sizes::proofs::Orders::order_is, matrix::proofs::AcceptedEntries::accepted_long))]
pub fn run(
    n: usize,
    sweeps: usize,
    matrix: &[f64],
    res: &mut [f64],
    vectors: &mut [f64],
) -> Result<Report, Refusal>
    ensures { outcome (ran_answered result) res.new vectors.new
        ≡ answered_run_of n sweeps matrix.now res.old vectors.old }
{
    runs::verdict(n, sweeps, matrix, res.len(), vectors.len())?;
    copy(matrix, res);
    set_identity(n, vectors);
    let mut matrices = Matrices {
        n,
        matrix: res,
        vectors,
    };
    let report = matrices.make_sweeps(sweeps);
    matrices.finish()?;
    Ok(report)
}

// Copies a list. Stays a loop: `copy_from_slice` has the library call memmove, and here it calls memcpy.
fn copy(from: &[f64], to: &mut [f64])
    requires { length to.old ≡ length from.now }
    ensures { to.new ≡ from.now }
{
    for (k, x) in to.iter_mut().enumerate() {
        *x = from[k];
    }
}

// Sets a matrix of order n to the identity.
fn set_identity(n: usize, a: &mut [f64])
    requires { (1 ≤ n) × (length a.old ≡ n * n) }
    ensures { a.new ≡ flat n identity }
{
    for (k, x) in a.iter_mut().enumerate() {
        *x = runs::identity(k / n + 1, k % n + 1);
    }
}
