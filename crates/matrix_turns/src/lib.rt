#![tactic(auto)]
// Two lines of a lent matrix turned, and what is found of their pair (document 01, "One rotation").
ghost use Rattle.std.specs.Prelude.{◌≡◌, ℕ, ◌+◌, ◌*◌, ◌<◌, length};
ghost use Rattle.matrix.specs.Matrix.{entry_of};
ghost use Rattle.matrix_turns.specs.Turns.{found_at, two_lines, on_lines, row_turn_all, column_turn_all, places_turned, turn_lines};

use rotation::{Found, Parameters};

// What is found of the pair of the lines p and q, of NaNs where there is no such line.
// Stays three numbers, here and below: a caller reads n, p and q from different places, and a struct of them would serve a single call.
pub fn found(n: usize, p: usize, q: usize, a: &[f64]) -> Found
    ensures { result ≡ found_at p q (entry_of n a.now) }
{
    rotation::of_pair(
        matrix::entry(n, p, p, a),
        matrix::entry(n, q, q, a),
        matrix::entry(n, p, q, a),
    )
}

// The row turn of the lines p and q in all columns. Where there are no such lines it does nothing, and so does the column turn.
#[tactic(auto, using(crate::proofs::TurnedLists::row_turns))]
pub fn turn_rows(parameters: Parameters, n: usize, p: usize, q: usize, a: &mut [f64])
    ensures { a.new ≡ on_lines n p q (row_turn_all parameters p q) a.old }
{
    if are_lines(n, p, q, a.len()) {
        turn_lines(parameters, n, 1, (p - 1) * n, (q - 1) * n, a);
    }
}

// The column turn of the lines p and q in all rows.
#[tactic(auto, using(crate::proofs::TurnedLists::column_turns))]
pub fn turn_columns(parameters: Parameters, n: usize, p: usize, q: usize, a: &mut [f64])
    ensures { a.new ≡ on_lines n p q (column_turn_all parameters p q) a.old }
{
    if are_lines(n, p, q, a.len()) {
        turn_lines(parameters, n, n, p - 1, q - 1, a);
    }
}

// Whether p and q are two different lines of a matrix of order n, and a length is that of the matrix.
#[tactic(auto, unfolding(crate::specs::Turns::two_lines))]
pub fn are_lines(n: usize, p: usize, q: usize, long: usize) -> bool
    ensures { result ≡ two_lines n p q long }
{
    p != q && matrix::is_place(n, p, q, long)
}

// Turns the values at i and j of the first of n lines, and those `step` farther in each line after it.
// Stays a count: two places follow from it, and one loop serves rows and columns; two zips, of rows and in each row, would be twins.
#[tactic(auto, using(crate::proofs::TurnedLines::line_steps))]
fn turn_lines(parameters: Parameters, n: usize, step: usize, i: usize, j: usize, a: &mut [f64])
    requires { (r : ℕ) → r < n → (i + r * step < length a.old) × (j + r * step < length a.old) }
    ensures { a.new ≡ turn_lines (λ r. i + r * step) (λ r. j + r * step) parameters n a.old }
{
    for r in 0..n {
        turn_places(parameters, i + r * step, j + r * step, a);
    }
}

// Turns the values at the indices i and j.
#[tactic(auto, unfolding(crate::specs::Turns::places_turned))]
fn turn_places(parameters: Parameters, i: usize, j: usize, a: &mut [f64])
    requires { (i < length a.old) × (j < length a.old) }
    ensures { a.new ≡ places_turned parameters i j a.old }
{
    let sides = rotation::turn(parameters, a[i], a[j]);
    a[i] = sides.left;
    a[j] = sides.right;
}
