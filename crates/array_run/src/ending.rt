// What a whole run makes of its array at the end.
ghost use Rattle.std.specs.Prelude.{◌≡◌, ◌*◌, ◌<◌, ◌≤◌, length};
ghost use Rattle.sizes.specs.Sizes.{most_processors, processors_of};
ghost use Rattle.matrix.specs.Matrix.{flat};
ghost use Rattle.runs.specs.Outcome.{outcome};
ghost use Rattle.array_run.specs.Results.{marked_in_row, some_marked, rounded_pairs, matrix_in, vectors_in, handed_over};
ghost use Rattle.array_run.specs.Whole.{completion_answered};

use crate::WholeReport;
use crate::whole::WholeRun;
use refusal::Refusal;
use sizes::MOST_PROCESSORS;

impl WholeRun {
    // Refusal 8 and +0 everywhere if a tile is marked, otherwise the numbers of sweeps, of ticks and of pairs with a rounded root, and the cells.
    pub fn hand_over(&self, res: &mut [f64], vectors: &mut [f64]) -> Result<WholeReport, Refusal>
        requires { (length res.old ≡ self.now.array.n * self.now.array.n) × (length vectors.old ≡ self.now.array.n * self.now.array.n) }
        ensures { outcome (completion_answered result) res.new vectors.new ≡ handed_over self.now.array }
    {
        if self.is_marked() {
            matrix::clear(res);
            matrix::clear(vectors);
            return Err(Refusal::Spoiled);
        }
        self.write_cells(res, vectors);
        Ok(WholeReport {
            sweeps: self.array.sweeps,
            ticks: self.array.tick,
            rounded: self.rounded_pairs(),
        })
    }

    // The pairs with a rounded root that the tiles on the diagonal count.
    fn rounded_pairs(&self) -> usize
        ensures { result ≡ rounded_pairs (processors_of self.now.array.n) self.now.array.tiles }
    {
        (0..sizes::processors_of(self.array.n))
            .map(|i| self.counts_at(i).rounded as usize)
            .sum()
    }

    // Whether a tile in use is marked.
    fn is_marked(&self) -> bool
        ensures { result ≡ some_marked (processors_of self.now.array.n) self.now.array.tiles }
    {
        let processors = sizes::processors_of(self.array.n);
        (0..processors).any(|i| self.is_row_marked(processors, i))
    }

    // Whether a tile before column `processors` of row i is marked.
    fn is_row_marked(&self, processors: usize, i: usize) -> bool
        requires { (i < most_processors) × (processors ≤ most_processors) }
        ensures { result ≡ marked_in_row processors self.now.array.tiles i }
    {
        (0..processors).any(|j| self.array.tiles[i * MOST_PROCESSORS + j].mark)
    }

    // Writes each cell to its row and column; those of line 0 are not handed over.
    // Stays a write by index in the second result: of two slices that are zipped mutably a proof knows the lengths alone.
    fn write_cells(&self, res: &mut [f64], vectors: &mut [f64])
        requires { (length res.old ≡ self.now.array.n * self.now.array.n) × (length vectors.old ≡ self.now.array.n * self.now.array.n) }
        ensures { (res.new ≡ flat self.now.array.n (matrix_in self.now.array.n self.now.array.tiles))
            × (vectors.new ≡ flat self.now.array.n (vectors_in self.now.array.n self.now.array.tiles)) }
    {
        let n = self.array.n;
        let first = sizes::first_line(n);
        for (k, entry) in res.iter_mut().enumerate() {
            let i = k / n + 1 - first;
            let j = k % n + 1 - first;
            let cells = self.array.tiles[i / 2 * MOST_PROCESSORS + j / 2].cells;
            *entry = cells.matrix.corner(i % 2 == 1, j % 2 == 1);
            vectors[k] = cells.vectors.corner(i % 2 == 1, j % 2 == 1);
        }
    }
}
