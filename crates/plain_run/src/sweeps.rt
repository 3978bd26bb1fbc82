// The two matrices of a run in their lent lists, and the sweeps on them.
ghost use Rattle.std.specs.Prelude.{◌≡◌, true, not, ◌||◌, ℕ, ◌*◌, ◌<◌, ◌≤◌, length, get_or};
ghost use Rattle.refusal.specs.Answers.{answered};
ghost use Rattle.lists.specs.Bounded.{count};
ghost use Rattle.sizes.specs.Sizes.{most_sweeps, is_order, largest_order, processors_of, sweep_steps, still_of, steps_of};
ghost use Rattle.rotation.specs.Rotation.{of_angle};
ghost use Rattle.matrix.specs.Matrix.{entry_of};
ghost use Rattle.matrix.specs.Transposed.{transposed_in};
ghost use Rattle.matrix_turns.specs.Turns.{parameters_of, tangent_at};
ghost use Rattle.runs.specs.Blocks.{ruled};
ghost use Rattle.runs.specs.Counts.{is_turn};
ghost use Rattle.runs.specs.Outcome.{outcome, report};
ghost use Rattle.plain_run.specs.State.{Paired, pairs_rotated, after};
ghost use Rattle.plain_run.specs.Run.{some_not_finite, finish_of};
ghost use Rattle.plain_run.specs.Met.{turns_by, rounded_by};
ghost use Rattle.plain_run.specs.Quiet.{report_of};
ghost use Rattle.plain_run.specs.Angles.{no_angle, no_tangent};

use crate::{Report, angles};
use ordering::Registers;
use refusal::Refusal;
use root::Root;
use rotation::Angle;
use sizes::MOST_PROCESSORS;

// How many pairs of a sweep were turned, and how many had a rounded root.
#[derive(Clone, Copy)]
struct Sweep {
    turns: usize,
    rounded: usize,
}

// The matrix of a run of order n, and the eigenvectors as rows.
#[derive(Drop)]
pub struct Matrices<'a> {
    pub n: usize,
    pub matrix: &'a mut [f64],
    pub vectors: &'a mut [f64],
    ghost order: { is_order n ≡ true },
    ghost most: { n ≤ largest_order },
    ghost matrix_long: { length matrix.now ≡ n * n },
    ghost vectors_long: { length vectors.now ≡ n * n },
}

impl Matrices<'_> {
    ghost use Rattle.plain_run.specs.Matrices.{state_in, SameLists, HeldAfter};

    // Makes sweeps until one is quiet, or all. There are at most the most sweeps, so the rounded pairs can be counted.
    pub fn make_sweeps(&mut self, sweeps: usize) -> Report
        requires { sweeps ≤ most_sweeps }
        ensures told { report result.sweeps result.rounded ≡ report_of self.old.n sweeps (state_in self.old) }
        ensures held { HeldAfter self.old self.new (after self.old.n (steps_of self.old.n result.sweeps) (state_in self.old)) }
    {
        let mut rounded = 0;
        for m in 0..sweeps {
            let sweep = self.make_sweep();
            rounded += sweep.rounded;
            if sweep.turns == 0 {
                return Report {
                    sweeps: m + 1,
                    rounded,
                };
            }
        }
        Report { sweeps, rounded }
    }

    // Makes the steps of one sweep and counts its turns and its rounded pairs. All tangents of a step are found before any cosine, and all cosines
    // before any turn, so that the processor need not wait for one root to begin the next.
    fn make_sweep(&mut self) -> Sweep
        ensures turns { result.turns ≡ turns_by self.old.n (sweep_steps self.old.n) (state_in self.old) }
        ensures rounded { result.rounded ≡ rounded_by self.old.n (sweep_steps self.old.n) (state_in self.old) }
        ensures held { HeldAfter self.old self.new (after self.old.n (sweep_steps self.old.n) (state_in self.old)) }
    {
        let mut registers = Registers::of_order(self.n);
        let mut turns = 0;
        let mut rounded = 0;
        for _ in 0..sizes::sweep_steps(self.n) {
            let step = angles::angles_of(self.n, self.tangents(registers));
            rounded += step.rounded;
            turns += self.make_pairs(registers, step.angles);
            registers = registers.after_step(self.n);
        }
        Sweep { turns, rounded }
    }

    // The tangents of the pairs of all processors that are not always still.
    fn tangents(&self, registers: Registers) -> [Root; MOST_PROCESSORS]
        ensures { (k : ℕ) → still_of self.now.n ≤ k → k < processors_of self.now.n → get_or result k no_tangent
            ≡ tangent_at (get_or registers.left k 0) (get_or registers.right k 0) (entry_of self.now.n self.now.matrix.now) }
    {
        let none = Root {
            value: 0.0,
            exact: false,
        };
        let mut tangents = [none; MOST_PROCESSORS];
        // Stays an index: the loop begins at a later processor, and chains over three arrays, one of them written, would be no plainer.
        for k in sizes::still_of(self.n)..sizes::processors_of(self.n) {
            tangents[k] = self.tangent(registers.left[k], registers.right[k]);
        }
        tangents
    }

    // The tangent of the pair of the lines p and q.
    fn tangent(&self, p: usize, q: usize) -> Root
        ensures { result ≡ tangent_at p q (entry_of self.now.n self.now.matrix.now) }
    {
        rotation::tangent_of_pair(
            matrix::entry(self.n, p, p, self.matrix),
            matrix::entry(self.n, q, q, self.matrix),
            matrix::entry(self.n, p, q, self.matrix),
        )
    }

    // Turns the pairs of all processors, in order, by the angle that each has at its turn, and answers how many are not still. A pair with line 0
    // changes nothing here.
    fn make_pairs(&mut self, registers: Registers, angles: [Angle; MOST_PROCESSORS]) -> usize
        requires paired { Paired self.old.n registers.left registers.right (processors_of self.old.n) }
        requires by_index { (k : ℕ) → still_of self.old.n ≤ k → k < processors_of self.old.n →
            of_angle (get_or angles k no_angle) ≡ parameters_of (get_or registers.left k 0) (get_or registers.right k 0)
            (pairs_rotated self.old.n registers.left registers.right k (state_in self.old)).matrix }
        ensures turns { result ≡ count (λ k. is_turn (ruled self.old.n k (of_angle (get_or angles k no_angle)))) (processors_of self.old.n) }
        ensures held { HeldAfter self.old self.new (pairs_rotated self.old.n registers.left registers.right (processors_of self.old.n) (state_in self.old)) }
    {
        let mut turns = 0;
        // Stays an index: the loop begins at a later processor, and a chain over three arrays would be no plainer.
        for k in sizes::still_of(self.n)..sizes::processors_of(self.n) {
            let parameters = rotation::of_angle(angles[k]);
            turns += runs::is_turn(parameters) as usize;
            plain_pair::turn(
                parameters,
                self.n,
                registers.left[k],
                registers.right[k],
                self.matrix,
                self.vectors,
            );
        }
        turns
    }

    // Transposes the eigenvectors, and then refusal 8 if an entry is not finite, with +0 everywhere.
    #[tactic(auto, using(runs::proofs::Starts::cleared), unfolding(crate::specs::Run::finish_of))]
    pub fn finish(&mut self) -> Result<(), Refusal>
        ensures left { outcome (answered result) self.new.matrix.now self.new.vectors.now
            ≡ finish_of self.old.n self.old.matrix.now (transposed_in self.old.n self.old.vectors.now) }
        ensures same { SameLists self.old self.new }
    {
        matrix::transpose(self.n, self.vectors);
        if self.is_finite() {
            Ok(())
        } else {
            matrix::clear(self.matrix);
            matrix::clear(self.vectors);
            Err(Refusal::Spoiled)
        }
    }

    // Whether all entries of both are finite.
    fn is_finite(&self) -> bool
        ensures { result ≡ not (some_not_finite self.now.matrix.now || some_not_finite self.now.vectors.now) }
    {
        all_finite(self.matrix) && all_finite(self.vectors)
    }
}

// Whether all values of a list are finite.
fn all_finite(a: &[f64]) -> bool
    ensures { result ≡ not (some_not_finite a.now) }
{
    a.iter().all(|x| float64::is_finite(*x))
}
