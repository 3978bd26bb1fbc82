// The cells of a tile: taken in, rotated, tested.
ghost use Rattle.std.specs.Prelude.{◌≡◌, ◌||◌};
ghost use Rattle.systolic.specs.Tiles.{distance, step_at};
ghost use Rattle.tile_schedule.specs.Schedule.{the_action};
ghost use Rattle.tile.specs.Turned.{rows_turned, columns_turned, both_turned, off_diagonal_of, on_diagonal_of, rotated_of, taken_of};
ghost use Rattle.tile_wires.specs.Wires.{quad};
ghost use Rattle.tile.specs.Turned.{part_not_finite, quad_not_finite};

use crate::Received;
use rotation::Parameters;
use runs::Counts;
use tile_schedule::Action;
use tile_wires::{Part, Place, Quad};

// The cells of a tile, what its parameter wires carry, and its counts, before its work or after it.
#[derive(Clone, Copy)]
pub struct Work {
    pub cells: Part,
    pub row: f64,
    pub column: f64,
    pub counts: Counts,
}

// The cells that a tile works on: its own, or where it reads its wires what they bring.
pub fn taken(action: Action, cells: Part, brought: Part) -> Part
    ensures { result ≡ taken_of (the_action action) cells brought }
{
    if tile_schedule::reads(action) {
        brought
    } else {
        cells
    }
}

// A tile off the diagonal passes on the tangents that it receives, and counts nothing.
#[tactic(auto, unfolding(crate::specs::Turned::rotated_of))]
pub fn rotated(n: usize, tick: usize, before: Work, place: Place, received: Received) -> Work
    ensures { result ≡ rotated_of n (step_at (distance place.i place.j) tick) before place.i place.j received.row received.column }
{
    let Place { i, j, .. } = place;
    if i == j {
        on_diagonal(n, tile_schedule::diagonal_step(tick), i, before)
    } else {
        Work {
            cells: off_diagonal(before.cells, i < j, received),
            row: received.row.tangent,
            column: received.column.tangent,
            ..before
        }
    }
}

// The tile of processor i finds its tangent, sends it along its row and its column, and counts its turns and its rounded pairs.
#[tactic(auto, using(crate::proofs::DiagonalWork::worked))]
fn on_diagonal(n: usize, step: usize, i: usize, before: Work) -> Work
    ensures { result ≡ on_diagonal_of n step i before }
{
    let Part { matrix: a, vectors } = before.cells;
    let found = runs::ruled(n, i, rotation::of_pair(a.alpha, a.delta, a.beta));
    let parameters = found.parameters;
    let sides = rotation::diagonal(parameters, a.alpha, a.delta, a.beta);
    let matrix = Quad {
        alpha: sides.left,
        beta: 0.0,
        gamma: 0.0,
        delta: sides.right,
    };
    let vectors = turn_columns(parameters, vectors);
    let tangent = rotation::sent(parameters);
    Work {
        cells: Part { matrix, vectors },
        row: tangent,
        column: tangent,
        counts: runs::counts_after(n, step, found, before.counts),
    }
}

// The eigenvectors get the column turn alone.
#[tactic(auto, unfolding(crate::specs::Turned::off_diagonal_of))]
fn off_diagonal(part: Part, above: bool, received: Received) -> Part
    ensures { result ≡ off_diagonal_of part above received.row received.column }
{
    let rows = rotation::of_angle(received.row);
    let columns = rotation::of_angle(received.column);
    Part {
        matrix: turn_both(rows, columns, above, part.matrix),
        vectors: turn_columns(columns, part.vectors),
    }
}

// Above the diagonal the rows are turned first, below it the columns.
#[tactic(auto, unfolding(crate::specs::Turned::both_turned))]
fn turn_both(rows: Parameters, columns: Parameters, above: bool, q: Quad<f64>) -> Quad<f64>
    ensures { result ≡ both_turned rows columns above q }
{
    if above {
        turn_columns(columns, turn_rows(rows, q))
    } else {
        turn_rows(rows, turn_columns(columns, q))
    }
}

// Rows are turned as the columns of the transpose are.
#[tactic(auto, unfolding(crate::specs::Turned::rows_turned, crate::specs::Turned::columns_turned, runs::specs::Blocks::columns_block))]
fn turn_rows(parameters: Parameters, q: Quad<f64>) -> Quad<f64>
    ensures { result ≡ rows_turned parameters q }
{
    transpose(turn_columns(parameters, transpose(q)))
}

#[tactic(auto, unfolding(crate::specs::Turned::columns_turned, runs::specs::Blocks::columns_block))]
fn turn_columns(parameters: Parameters, q: Quad<f64>) -> Quad<f64>
    ensures { result ≡ columns_turned parameters q }
{
    match parameters {
        Parameters::Still => q,
        Parameters::Turn(_, c, s) => Quad {
            alpha: c * q.alpha - s * q.beta,
            beta: s * q.alpha + c * q.beta,
            gamma: c * q.gamma - s * q.delta,
            delta: s * q.gamma + c * q.delta,
        },
    }
}

fn transpose(q: Quad<f64>) -> Quad<f64>
    ensures { result ≡ quad q.alpha q.gamma q.beta q.delta }
{
    Quad {
        beta: q.gamma,
        gamma: q.beta,
        ..q
    }
}

// Whether a tile is marked after a tick that leaves it the given cells.
#[tactic(auto, unfolding(crate::specs::Turned::part_not_finite))]
pub fn is_marked(mark: bool, cells: Part) -> bool
    ensures { result ≡ (mark || part_not_finite cells) }
{
    mark || not_finite(cells.matrix) || not_finite(cells.vectors)
}

// Whether an entry is not finite.
#[tactic(auto, unfolding(crate::specs::Turned::quad_not_finite))]
fn not_finite(q: Quad<f64>) -> bool
    ensures { result ≡ quad_not_finite q }
{
    !float64::is_finite(q.alpha)
        || !float64::is_finite(q.beta)
        || !float64::is_finite(q.gamma)
        || !float64::is_finite(q.delta)
}
