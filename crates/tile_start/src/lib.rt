#![tactic(auto)]
// The tiles at the start (document 01, "The array").
ghost use Rattle.std.specs.Prelude.{◌≡◌, ℕ, ◌<◌, ◌≤◌, Float};
ghost use Rattle.sizes.specs.Sizes.{most_processors, largest_order};
ghost use Rattle.runs.specs.State.{bordered};
ghost use Rattle.tile_start.specs.Beginning.{zero_part, starting_tile, quad_at, start_tile};

use runs::Counts;
use tile::Tile;
use tile_wires::{Part, Quad};

// The tile in row i and column j of an array for a matrix of order n: zeros where it is not in use.
#[tactic(auto, unfolding(crate::specs::Beginning::start_tile, crate::specs::Beginning::part_at))]
pub fn tile_at(n: usize, i: usize, j: usize, matrix: &[f64]) -> Tile
    requires { (i < most_processors) × (j < most_processors) }
    ensures { result ≡ start_tile n matrix.now i j }
{
    let processors = sizes::processors_of(n);
    if i >= processors || j >= processors {
        return zero_tile();
    }
    let first = sizes::first_line(n);
    let row = 2 * i + first;
    let column = 2 * j + first;
    tile_with(Part {
        matrix: quad_at(|r, c| matrix::entry(n, r, c, matrix), row, column),
        vectors: quad_at(runs::identity, row, column),
    })
}

// Zeros only.
pub fn zero_tile() -> Tile
    ensures { result ≡ starting_tile zero_part }
{
    tile_with(zero_part())
}

// A tile with these cells, its wires at +0, not marked, nothing counted.
#[tactic(auto, unfolding(crate::specs::Beginning::starting_tile))]
fn tile_with(cells: Part) -> Tile
    ensures { result ≡ starting_tile cells }
{
    Tile {
        cells,
        wires: zero_part(),
        row_wire: 0.0,
        column_wire: 0.0,
        mark: false,
        counts: Counts {
            turns: 0,
            rounded: 0,
        },
    }
}

#[tactic(auto, unfolding(crate::specs::Beginning::zero_part))]
fn zero_part() -> Part
    ensures { result ≡ zero_part }
{
    let zero = Quad {
        alpha: 0.0,
        beta: 0.0,
        gamma: 0.0,
        delta: 0.0,
    };
    Part {
        matrix: zero,
        vectors: zero,
    }
}

// The part of a matrix with these entries in the rows r and r + 1 and the columns c and c + 1, with a line 0 of +0 beside its lines.
#[tactic(auto, unfolding(crate::specs::Beginning::quad_at))]
fn quad_at<F: Fn(usize, usize) -> f64>(entry: F, r: usize, c: usize) -> Quad<f64>
    requires small { (r < largest_order) × (c < largest_order) }
    requires callable { F.IsAlwaysCallable entry }
    ensures { (A : ℕ → ℕ → Float) → ((p q : ℕ) (x : Float) → F.post entry p q x → x ≡ A p q) → result ≡ quad_at (bordered A) r c }
{
    Quad {
        alpha: bordered(&entry, r, c),
        beta: bordered(&entry, r, c + 1),
        gamma: bordered(&entry, r + 1, c),
        delta: bordered(&entry, r + 1, c + 1),
    }
}

#[tactic(auto, unfolding(runs::specs::State::bordered))]
fn bordered<F: Fn(usize, usize) -> f64>(entry: &F, r: usize, c: usize) -> f64
    requires callable { F.IsAlwaysCallable entry.now }
    ensures { (A : ℕ → ℕ → Float) → ((p q : ℕ) (x : Float) → F.post entry.now p q x → x ≡ A p q) → result ≡ bordered A r c }
{
    if r == 0 || c == 0 { 0.0 } else { entry(r, c) }
}
