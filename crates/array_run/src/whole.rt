// The array of a whole run.
ghost use Rattle.std.specs.Prelude.{◌≡◌, true, ◌<◌, ◌≤◌};
ghost use Rattle.sizes.specs.Sizes.{most_processors, most_sweeps, is_order};
ghost use Rattle.array.specs.Arrays.{tile_at};
ghost use Rattle.array.specs.Runs.{start_array};

use array::Array;
use runs::Counts;
use sizes::MOST_PROCESSORS;

// An array of an order and of sweeps that a run may have.
#[derive(Drop)]
pub struct WholeRun {
    pub array: Array,
    ghost has_order: { is_order array.n ≡ true },
    ghost few_sweeps: { array.sweeps ≤ most_sweeps },
}

impl WholeRun {
    // Before its first tick.
    pub fn start(n: usize, sweeps: usize, matrix: &[f64]) -> WholeRun
        requires { (is_order n ≡ true) × (sweeps ≤ most_sweeps) }
        ensures { result.array ≡ start_array n sweeps matrix.now }
    {
        WholeRun {
            array: Array::of_matrix(n, sweeps, matrix),
        }
    }

    // What the tile in row and column i counts.
    #[tactic(auto, unfolding(array::specs::Arrays::tile_at, array::specs::Arrays::no_tile))]
    pub fn counts_at(&self, i: usize) -> Counts
        requires { i < most_processors }
        ensures { result ≡ (tile_at self.now.array.tiles i i).counts }
    {
        self.array.tiles[i * MOST_PROCESSORS + i].counts
    }
}
