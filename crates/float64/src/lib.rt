#![tactic(auto)]
// Small functions on f64 that the other crates share. The language has one NaN and no pattern for
// it, so these are the only places that read or make the bits of a value that may be a NaN.
ghost use Rattle.std.specs.Prelude.{◌≡◌};
ghost use Rattle.std.specs.Float.{nan, binary64};
ghost use Rattle.std.specs.Float.Ieee.{to_bits, of_bits};
ghost use Rattle.float64.specs.Values.{finite, magnitude, same_bits};

// Whether x is neither a NaN nor an infinity.
pub fn is_finite(x: f64) -> bool
    ensures { result ≡ finite x }
{
    x.is_finite()
}

// The NaN.
pub fn not_a_number() -> f64
    ensures { result ≡ nan }
{
    f64::NAN
}

// The pattern of x, for the NaN 7FF8000000000000.
pub fn to_bits(x: f64) -> u64
    ensures { result ≡ to_bits binary64 x }
{
    if x.is_nan() {
        0x7ff8_0000_0000_0000
    } else {
        x.to_bits()
    }
}

// The value of the pattern b, for every NaN pattern the NaN.
pub fn from_bits(b: u64) -> f64
    ensures { result ≡ of_bits binary64 b }
{
    if b % 0x8000_0000_0000_0000 > 0x7ff0_0000_0000_0000 {
        not_a_number()
    } else {
        f64::from_bits(b)
    }
}

// Whether the pattern b is that of a finite value.
pub fn is_finite_pattern(b: u64) -> bool
    ensures { result ≡ finite (of_bits binary64 b) }
{
    b % 0x8000_0000_0000_0000 < 0x7ff0_0000_0000_0000
}

// Whether x and y have the same pattern: +0 and -0 differ.
pub fn same_bits(x: f64, y: f64) -> bool
    ensures { result ≡ same_bits x y }
{
    to_bits(x) == to_bits(y)
}

// The absolute value of x.
pub fn magnitude(x: f64) -> f64
    ensures { result ≡ magnitude x }
{
    x.abs()
}
