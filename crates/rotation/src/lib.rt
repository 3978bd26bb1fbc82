#![tactic(auto)]
// One rotation of a pair of lines (document 01, "One rotation"; document 02 (v) and (vii); document 003, (5.1)).
ghost use Rattle.std.specs.Prelude.{◌≡◌};
ghost use Rattle.rotation.specs.Rotation.{signum, angle_of, of_angle, sent, diagonal_of, turn_of};
ghost use Rattle.rotation.specs.Exact.{found_of, rooted_of, tangent_rooted, cosine_rooted, tangent_found};

use root::Root;

// Still, or a turn with the tangent, the cosine and the sine of its angle.
// Stays an enum: document 01 names the form "an enum with a bare case and a case of three f64".
#[derive(Clone, Copy)]
pub enum Parameters {
    Still,
    Turn(f64, f64, f64),
}

// The parameters of a pair, and whether both of its roots are exact.
#[derive(Clone, Copy)]
pub struct Found {
    pub parameters: Parameters,
    pub exact: bool,
}

// The tangent of an angle and its cosine.
#[derive(Clone, Copy)]
pub struct Angle {
    pub tangent: f64,
    pub cosine: f64,
}

// A value at the left line of a pair and one at the right.
#[derive(Clone, Copy)]
pub struct Sides {
    pub left: f64,
    pub right: f64,
}

// The parameters of a pair, from a = a_pp, d = a_qq and b = a_pq, in the steps of document 003, (5.1), where the quotient is ξ. Document 02 (v) has ξ by
// halves, and no double. Document 01 completes the steps: a pair is still where b is zero, and where t is; the sign of zero is 1 (`sign`); and where ξ isn't
// a number, t, c and s aren't either (`root_or_nan`), which finite entries never make. Where t is zero the root in the cosine would be that of 1.
// Stays three numbers and no struct: the six steps that document 01 names are written in them, and `found_of`, `tangent_found` and `diagonal_of` take them.
pub fn of_pair(a: f64, d: f64, b: f64) -> Found
    ensures { result ≡ found_of a d b }
{
    if b == 0.0 {
        return Found {
            parameters: Parameters::Still,
            exact: true,
        };
    }
    let half_d = d / 2.0;
    let half_a = a / 2.0;
    let difference = half_d - half_a;
    let quotient = difference / b;
    let tangent = tangent_of(quotient);
    if tangent.value == 0.0 {
        return Found {
            parameters: Parameters::Still,
            exact: tangent.exact,
        };
    }
    let cosine = cosine_of(tangent.value);
    let sine = tangent.value * cosine.value;
    Found {
        parameters: Parameters::Turn(tangent.value, cosine.value, sine),
        exact: tangent.exact && cosine.exact,
    }
}

// The tangent of a pair, +0 where b is zero: the steps of `of_pair` as far as the tangent, for a caller that finds many before any cosine.
// Stays a second place with these steps: document 01 names the six steps of `of_pair`, which has to show each of them in its own body.
pub fn tangent_of_pair(a: f64, d: f64, b: f64) -> Root
    ensures { result ≡ tangent_found a d b }
{
    if b == 0.0 {
        return Root {
            value: 0.0,
            exact: true,
        };
    }
    let half_d = d / 2.0;
    let half_a = a / 2.0;
    let difference = half_d - half_a;
    let quotient = difference / b;
    tangent_of(quotient)
}

// The parameters of a pair that is turned by an angle.
pub fn of_angle(x: Angle) -> Parameters
    ensures { result ≡ of_angle x }
{
    if x.tangent == 0.0 {
        Parameters::Still
    } else {
        let sine = x.tangent * x.cosine;
        Parameters::Turn(x.tangent, x.cosine, sine)
    }
}

impl Angle {
    // The angle whose tangent is t.
    pub fn of_tangent(t: f64) -> Angle
        ensures { result ≡ angle_of t }
    {
        Angle {
            tangent: t,
            cosine: cosine_of(t).value,
        }
    }
}

// The tangent that a diagonal tile passes on.
pub fn sent(p: Parameters) -> f64
    ensures { result ≡ sent p }
{
    match p {
        Parameters::Still => 0.0,
        Parameters::Turn(t, _, _) => t,
    }
}

// The new a_pp and a_qq.
pub fn diagonal(p: Parameters, a: f64, d: f64, b: f64) -> Sides
    ensures { result ≡ diagonal_of p a d b }
{
    match p {
        Parameters::Still => Sides { left: a, right: d },
        Parameters::Turn(t, _, _) => Sides {
            left: a - t * b,
            right: d + t * b,
        },
    }
}

// The values x at the left line and y at the right, turned.
pub fn turn(p: Parameters, x: f64, y: f64) -> Sides
    ensures { result ≡ turn_of p x y }
{
    match p {
        Parameters::Still => Sides { left: x, right: y },
        Parameters::Turn(_, c, s) => Sides {
            left: c * x - s * y,
            right: s * x + c * y,
        },
    }
}

// t = sign(ξ) / (|ξ| + √(1 + ξ ξ))
fn tangent_of(xi: f64) -> Root
    ensures { result ≡ tangent_rooted xi }
{
    let root = root_or_nan(1.0 + xi * xi);
    Root {
        value: sign(xi) / (float64::magnitude(xi) + root.value),
        ..root
    }
}

// cos θ = 1 / √(1 + t t), where t is zero without a root
pub fn cosine_of(t: f64) -> Root
    ensures { result ≡ cosine_rooted t }
{
    if t == 0.0 {
        return Root {
            value: 1.0,
            exact: true,
        };
    }
    let root = root_or_nan(1.0 + t * t);
    Root {
        value: 1.0 / root.value,
        ..root
    }
}

// -1 below zero and otherwise 1, for a zero of either sign too.
// Stays a test: `f64::signum` is -1 at -0 and not a number at the NaN, where `signum` of the contract is 1.
fn sign(xi: f64) -> f64
    ensures { result ≡ signum xi }
{
    if xi < 0.0 { -1.0 } else { 1.0 }
}

// The root of x, or the NaN where x has none, which is not exact.
fn root_or_nan(x: f64) -> Root
    ensures { result ≡ rooted_of x }
{
    root::sqrt(x).unwrap_or(Root {
        value: float64::not_a_number(),
        exact: false,
    })
}
