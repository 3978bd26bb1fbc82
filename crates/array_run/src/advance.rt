// The ticks of a whole run, which ends after its first quiet sweep (document 02 (vi)).
ghost use Rattle.std.specs.Prelude.{◌≡◌};
ghost use Rattle.sizes.specs.Sizes.{processors_of, ticks_of};
ghost use Rattle.array_run.specs.Advance.{none_counted, advanced_by};

use crate::whole::WholeRun;

impl WholeRun {
    // Makes all ticks of a run from the start. With L steps in a sweep the tick 3 (m L - 1) has the last rotations on the diagonal in sweep m, and S
    // can be lowered only right after such a tick. So the ticks up to it are made in one go.
    pub fn to_the_end(&mut self)
        requires { self.old.array.tick ≡ 0 }
        ensures { self.new.array ≡ advanced_by (ticks_of self.old.array.n self.old.array.sweeps) self.old.array }
    {
        let n = self.array.n;
        let sweeps = self.array.sweeps;
        let end = sizes::ticks_of(n, sweeps);
        for m in 0..sweeps {
            let next = 3 * sizes::steps_of(n, m + 1) - 2;
            self.array = self.array.after(next - self.array.tick);
            if self.none_counted() {
                self.array.sweeps = m + 1;
                self.array = self.array.ticks(end - next);
                return;
            }
        }
        self.array = self.array.ticks(end - self.array.tick);
    }

    // Whether no tile on the diagonal counts a turn in the current sweep.
    fn none_counted(&self) -> bool
        ensures { result ≡ none_counted (processors_of self.now.array.n) self.now.array.tiles }
    {
        let processors = sizes::processors_of(self.array.n);
        !(0..processors).any(|i| self.counts_at(i).turns != 0)
    }
}
