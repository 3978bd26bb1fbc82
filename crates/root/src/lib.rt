#![tactic(auto)]
// The correctly rounded square root of an f64 (document 01, "Square root"), and whether it is exact (document 02 (vii)).
mod whole;

ghost use Rattle.std.specs.Prelude.{◌≡◌, ℕ, ◌*◌, ◌^◌, ◌<◌, ◌≤◌, from_bits};
ghost use Rattle.std.specs.Float.{binary64};
ghost use Rattle.float64.specs.Units.{units_of};
ghost use Rattle.root.specs.Exact.{root_of_units, sqrt_answer, root_answered};

use refusal::Refusal;

// A value found by a square root, and whether that root is exact.
#[derive(Clone, Copy)]
pub struct Root {
    pub value: f64,
    pub exact: bool,
}

// The square root of x.
// Stays the program's own: document 01 names the form "the program's own correctly rounded square root", so `f64::sqrt` is not called.
pub fn sqrt(x: f64) -> Result<Root, Refusal>
    ensures { root_answered result ≡ sqrt_answer x }
{
    if x > 0.0 && x < f64::INFINITY {
        Ok(positive(x.to_bits()))
    } else if x == 0.0 || x == f64::INFINITY {
        Ok(Root {
            value: x,
            exact: true,
        })
    } else {
        Err(Refusal::NoRoot)
    }
}

// The root of the value with the pattern b, which is finite and above zero.
fn positive(b: u64) -> Root
    requires { (0 < b) × (b < 0x7ff0_0000_0000_0000) }
    ensures { result ≡ root_of_units (units_of (from_bits binary64 b)) }
{
    let field = b / 0x10_0000_0000_0000;
    if field == 0 {
        subnormal(b)
    } else {
        let m = b % 0x10_0000_0000_0000 + 0x10_0000_0000_0000;
        scaled(m, field + 52, guess(b))
    }
}

// The root of b units, below the smallest normal value: the digits are brought to the top first.
fn subnormal(b: u64) -> Root
    requires { (0 < b) × (b < 2 ^ 52) }
    ensures { result ≡ root_of_units b }
{
    let shift = b.leading_zeros() - 11;
    let m = b << shift;
    let z = 53 - shift as u64;
    scaled(m, z, guess((1021 + z % 2) * 0x10_0000_0000_0000 + m))
}

// The root of m * 2^z / 2^53 units: the nearest root of k * 2^52, times 2^(484 + h) units. It is looked for near g.
#[inline]
fn scaled(m: u64, z: u64, g: u64) -> Root
    requires { (2 ^ 52 ≤ m) × (m < 2 ^ 53) × (1 ≤ z) × (z ≤ 2098) × (2 ^ 52 ≤ g) × (g < 2 ^ 53) }
    ensures { (n : ℕ) → n * 2 ^ 53 ≡ m * 2 ^ z → result ≡ root_of_units n }
{
    let k = m * (2 - z % 2);
    let h = (z + 1) / 2;
    let q = whole::nearest_root(k, g);
    Root {
        value: f64::from_bits((484 + h) * 0x10_0000_0000_0000 + q),
        exact: whole::is_exact(k, q),
    }
}

// A number of 53 digits near those of the root of the value x with the pattern b: two steps of
// Newton's iteration for the inverse root, then three terms of the binomial series. The steps leave
// out divisions by 2, so y becomes 16 times the inverse root and r 16 times the root, which has the
// same digits. Nothing rests on how near they are.
fn guess(b: u64) -> u64
    requires { b < 0x7ff0_0000_0000_0000 }
    ensures { (2 ^ 52 ≤ result) × (result < 2 ^ 53) }
{
    let x = f64::from_bits(b);
    let y = f64::from_bits(0x5fe6_ed21_02dc_bfda - b / 2);
    let y = y * 3.00175792 - x * y * (y * y);
    let y = y * 12.0 - x * y * (y * y);
    let s = x * y;
    let e = 256.0 - s * y;
    let r = s + s * e * (0.001953125 + 0.0000057220458984375 * e);
    if r.is_nan() {
        0x10_0000_0000_0000
    } else {
        r.to_bits() % 0x10_0000_0000_0000 + 0x10_0000_0000_0000
    }
}
