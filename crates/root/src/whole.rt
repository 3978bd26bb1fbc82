// Square roots of whole numbers: of w = k * 2^52, which has 105 or 106 binary digits.
ghost use Rattle.std.specs.Prelude.{◌≡◌, ◌+◌, ◌*◌, ◌^◌, ◌<◌, ◌≤◌, ◌==◌, IfSome};
ghost use Rattle.root.specs.Sqrt.{nearest_root};

// The nearest whole number to the root of k * 2^52. It is looked for near g, and where it is not found there it is worked
// out digit by digit.
pub fn nearest_root(k: u64, g: u64) -> u64
    requires { (2 ^ 52 ≤ k) × (k < 2 ^ 54) × (2 ^ 52 ≤ g) × (g < 2 ^ 53) }
    ensures { result ≡ nearest_root (k * 2 ^ 52) }
{
    settle(k, g).unwrap_or_else(|| digits(k))
}

// Whether the whole number q nearest to the root of k * 2^52 is that root. Then q ends in 26 zeros, and k is the square
// of the digits before them.
pub fn is_exact(k: u64, q: u64) -> bool
    requires { (2 ^ 52 ≤ k) × (k < 2 ^ 54) × (q < 2 ^ 53) × (q ≡ nearest_root (k * 2 ^ 52)) }
    ensures { result ≡ (q * q == k * 2 ^ 52) }
{
    let a = q / 0x400_0000;
    a * a == k
}

// The nearest whole number to the root of k * 2^52, if it is q or beside q.
fn settle(k: u64, q: u64) -> Option<u64>
    requires { (2 ^ 52 ≤ k) × (k < 2 ^ 54) × (2 ^ 52 ≤ q) × (q < 2 ^ 53) }
    ensures { IfSome result (λ r. r ≡ nearest_root (k * 2 ^ 52)) }
{
    let left = remainder(k, q)?;
    Some(q - 1 + (left + 3 > q * 2) as u64 + (left + 3 > q * 4) as u64)
}

// k * 2^52 - q^2 + 3 * q - 3, if that is a number below 6 * q. The square is that of a * 2^27 + b.
fn remainder(k: u64, q: u64) -> Option<u64>
    requires { (k < 2 ^ 54) × (q < 2 ^ 53) }
    ensures { IfSome result (λ left. (left < q * 6) × (left + 3 + q * q ≡ k * 2 ^ 52 + 3 * q)) }
{
    let a = q / 0x800_0000;
    let b = q % 0x800_0000;
    let high = k.wrapping_sub(a * a * 4);
    if high >= 0x4000_0000 {
        return None;
    }
    let middle = (high * 0x100_0000 + 0x400_0000).wrapping_sub(a * b);
    if middle >= 0x4000_0000 {
        return None;
    }
    let left = (middle * 0x1000_0000 + q * 3).wrapping_sub(b * b + 0x40_0000_0000_0003);
    (left < q * 6).then_some(left)
}

// The nearest whole number to the root of k * 2^52, by the whole part of the root of k * 2^54, of which a turn finds a binary digit.
fn digits(k: u64) -> u64
    requires { (2 ^ 52 ≤ k) × (k < 2 ^ 54) }
    ensures { result ≡ nearest_root (k * 2 ^ 52) }
{
    let mut left: u64 = k * 1024;
    let mut rest: u64 = 0;
    let mut root: u64 = 0;
    for _ in 0..54u64 {
        rest = rest * 4 + left / 0x4000_0000_0000_0000;
        left = left % 0x4000_0000_0000_0000 * 4;
        let test = root * 4 + 1;
        root *= 2;
        if test <= rest {
            rest -= test;
            root += 1;
        }
    }
    (root + 1) / 2
}
