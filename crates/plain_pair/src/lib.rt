#![tactic(auto)]
// What the pair of two lines does to a lent matrix and to its eigenvectors (document 01, "Plain run").
ghost use Rattle.std.specs.Prelude.{◌≡◌, true, ◌*◌, length};
ghost use Rattle.float64.specs.Values.{plus_zero};
ghost use Rattle.rotation.specs.Rotation.{diagonal_of};
ghost use Rattle.matrix.specs.Matrix.{at, flat, is_place, entry_of};
ghost use Rattle.matrix_turns.specs.Turns.{two_lines};
ghost use Rattle.plain_pair.specs.Pair.{with_entry, pair_turned, state_turned, state_of, Held, has_pair, two_lists, pair_of};

use rotation::{Parameters, Sides};

// Two lines that a matrix of order n has.
#[derive(Clone, Copy)]
struct Lines {
    n: usize,
    p: usize,
    q: usize,
    ghost are_two: { two_lines n p q (n * n) ≡ true },
}

// Turns the lines p and q by their parameters; the eigenvectors are the rows of `vectors`. Where there are no such lines, or one length is
// not the other, it does nothing.
#[tactic(auto, using(crate::proofs::PairLines::two_square), unfolding(crate::specs::Pair::pair_of, crate::specs::Pair::has_pair))]
pub fn turn(
    parameters: Parameters,
    n: usize,
    p: usize,
    q: usize,
    a: &mut [f64],
    vectors: &mut [f64],
)
    ensures { two_lists a.new vectors.new ≡ pair_of parameters n p q a.old vectors.old }
{
    if vectors.len() == a.len() && matrix_turns::are_lines(n, p, q, a.len()) {
        Lines { n, p, q }.turn(parameters, a, vectors);
    }
}

impl Lines {
    // Turns both lists.
    fn turn(self, parameters: Parameters, a: &mut [f64], vectors: &mut [f64])
        requires matrix { length a.old ≡ self.n * self.n }
        requires eigenvectors { length vectors.old ≡ self.n * self.n }
        ensures { Held self.n a.new vectors.new (state_turned parameters self.p self.q (state_of self.n a.old vectors.old)) }
    {
        match parameters {
            Parameters::Still => self.clear(a),
            Parameters::Turn(..) => {
                self.turn_matrix(parameters, a);
                matrix_turns::turn_rows(parameters, self.n, self.p, self.q, vectors);
            }
        }
    }

    // The matrix with the lines turned.
    fn turn_matrix(self, parameters: Parameters, a: &mut [f64])
        requires { length a.old ≡ self.n * self.n }
        ensures { a.new ≡ flat self.n (pair_turned parameters self.p self.q (at self.n a.old)) }
    {
        let sides = self.new_diagonal(parameters, a);
        matrix_turns::turn_rows(parameters, self.n, self.p, self.q, a);
        matrix_turns::turn_columns(parameters, self.n, self.p, self.q, a);
        self.set(sides, a);
    }

    // The new a_pp and a_qq.
    fn new_diagonal(self, parameters: Parameters, a: &[f64]) -> Sides
        ensures { result ≡ diagonal_of parameters (entry_of self.n a.now self.p self.p) (entry_of self.n a.now self.q self.q)
            (entry_of self.n a.now self.p self.q) }
    {
        rotation::diagonal(
            parameters,
            matrix::entry(self.n, self.p, self.p, a),
            matrix::entry(self.n, self.q, self.q, a),
            matrix::entry(self.n, self.p, self.q, a),
        )
    }

    // Sets a_pp and a_qq, and a_pq and a_qp to +0.
    #[tactic(auto, using(crate::proofs::PairLines::pair_places))]
    fn set(self, diagonal: Sides, a: &mut [f64])
        requires { length a.old ≡ self.n * self.n }
        ensures { a.new ≡ flat self.n (with_entry self.q self.p plus_zero (with_entry self.p self.q plus_zero
            (with_entry self.q self.q diagonal.right (with_entry self.p self.p diagonal.left (at self.n a.old))))) }
    {
        self.set_entry(self.p, self.p, diagonal.left, a);
        self.set_entry(self.q, self.q, diagonal.right, a);
        self.clear(a);
    }

    // Sets a_pq and a_qp to +0.
    #[tactic(auto, using(crate::proofs::PairLines::pair_places))]
    fn clear(self, a: &mut [f64])
        requires { length a.old ≡ self.n * self.n }
        ensures { a.new ≡ flat self.n (with_entry self.q self.p plus_zero (with_entry self.p self.q plus_zero (at self.n a.old))) }
    {
        self.set_entry(self.p, self.q, 0.0, a);
        self.set_entry(self.q, self.p, 0.0, a);
    }

    // Sets the entry in row r and column c.
    #[tactic(auto, using(crate::proofs::EntrySet::entry_steps))]
    fn set_entry(self, r: usize, c: usize, x: f64, a: &mut [f64])
        requires { is_place self.n r c (length a.old) ≡ true }
        ensures { a.new ≡ flat self.n (with_entry r c x (at self.n a.old)) }
    {
        a[(r - 1) * self.n + (c - 1)] = x;
    }
}
