#![tactic(auto)]
// Lent matrices, row by row (document 01).
// Stays a slice with the order beside it: document 01 names "lent f64 slices, n n values row by row".
ghost use Rattle.std.specs.Prelude.{◌≡◌, ℕ, ◌+◌, ◌*◌, ◌<◌, length, eqb, Float};
ghost use Rattle.float64.specs.Values.{plus_zero};
ghost use Rattle.lists.specs.Tabulate.{tabulate};
ghost use Rattle.refusal.specs.Answers.{answered};
ghost use Rattle.matrix.specs.Matrix.{flat, is_line, is_place, entry_of};
ghost use Rattle.matrix.specs.Transposed.{transposed_in, across, up_to};
ghost use Rattle.matrix.specs.Entries.{first_place, not_finite_at, not_mirrored_at, entries_of};

use refusal::Refusal;

// Refusals 3, 5 and 6 of a matrix of order n.
#[tactic(auto, using(crate::proofs::Answers::entry_tests))]
pub fn tested(n: usize, a: &[f64]) -> Result<(), Refusal>
    ensures { answered result ≡ entries_of n a.now }
{
    if !is_square(n, a.len()) {
        return Err(Refusal::Length);
    }
    first_not_finite(n, a)?;
    first_not_mirrored(n, a)
}

// Whether a length is n * n, which may be too large for the type.
pub fn is_square(n: usize, long: usize) -> bool
    ensures { result ≡ eqb long (n * n) }
{
    n.checked_mul(n) == Some(long)
}

// The entry in row r and column c, and NaN where there is none.
#[tactic(auto, using(crate::proofs::EntryPlaces::place_within), unfolding(crate::specs::Matrix::entry_of, crate::specs::Matrix::at))]
pub fn entry(n: usize, r: usize, c: usize, a: &[f64]) -> f64
    ensures { result ≡ entry_of n a.now r c }
{
    if is_place(n, r, c, a.len()) {
        a[(r - 1) * n + (c - 1)]
    } else {
        float64::not_a_number()
    }
}

// Whether r and c are lines of a matrix of order n, and a length is that of the matrix.
#[tactic(auto, unfolding(crate::specs::Matrix::is_place))]
pub fn is_place(n: usize, r: usize, c: usize, long: usize) -> bool
    ensures { result ≡ is_place n r c long }
{
    is_line(n, r) && is_line(n, c) && is_square(n, long)
}

// Whether p is a line of a matrix of order n.
fn is_line(n: usize, p: usize) -> bool
    ensures { result ≡ is_line n p }
{
    1 <= p && p <= n
}

// Refusal 5 of the first entry, in row order, that is not finite.
// Stays nested loops left by a label: document 01 names the form "nested loops over rows and columns, left by a label at the first bad entry".
#[tactic(auto, using(crate::proofs::EntryTests::finite_steps))]
fn first_not_finite(n: usize, a: &[f64]) -> Result<(), Refusal>
    requires { length a.now ≡ n * n }
    ensures { answered result ≡ first_place n (not_finite_at n a.now) }
{
    let mut found = Ok(());
    'rows: for i in 0..n {
        for j in 0..n {
            if !float64::is_finite(entry(n, i + 1, j + 1, a)) {
                found = Err(Refusal::NotFinite(i + 1, j + 1));
                break 'rows;
            }
        }
    }
    found
}

// Refusal 6 of the first entry, in row order, that differs from its mirror.
// Stays a loop of its own: with the test as a closure the lower half is visited too, and a test at order 32 takes 1.3 times as long.
#[tactic(auto, using(crate::proofs::EntryTests::mirror_steps))]
fn first_not_mirrored(n: usize, a: &[f64]) -> Result<(), Refusal>
    requires { length a.now ≡ n * n }
    ensures { answered result ≡ first_place n (not_mirrored_at n a.now) }
{
    let mut found = Ok(());
    'rows: for i in 0..n {
        for j in i + 1..n {
            if !float64::same_bits(entry(n, i + 1, j + 1, a), entry(n, j + 1, i + 1, a)) {
                found = Err(Refusal::NotMirrored(i + 1, j + 1));
                break 'rows;
            }
        }
    }
    found
}

// Sets all values to +0.
pub fn clear(a: &mut [f64])
    ensures { a.new ≡ tabulate (length a.old) (λ k. plus_zero) }
{
    a.fill(0.0);
}

// Transposes a matrix of order n in its place. Where the length is not that of the matrix it does nothing.
#[tactic(auto, using(crate::proofs::Transposition::left_as_it_was, crate::proofs::Transposition::begun, crate::proofs::Transposition::ended))]
pub fn transpose(n: usize, a: &mut [f64])
    ensures { a.new ≡ transposed_in n a.old }
{
    if is_square(n, a.len()) {
        for i in 0..n {
            exchange_line(n, i, a);
        }
    }
}

// Exchanges row i and column i up to the diagonal, where those before them are exchanged. Lines count from 0.
#[tactic(auto, using(crate::proofs::Transposition::first_within, crate::proofs::Transposition::second_within))]
fn exchange_line(n: usize, i: usize, a: &mut [f64])
    requires { (i < n) × (length a.old ≡ n * n) }
    ensures { (A : ℕ → ℕ → Float) → a.old ≡ flat n (across (up_to i 0) A) → a.new ≡ flat n (across (up_to (i + 1) 0) A) }
{
    for j in 0..i {
        a.swap(i * n + j, j * n + i);
    }
}
