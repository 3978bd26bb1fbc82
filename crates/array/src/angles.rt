// The angles of tangents that pass along the wires. All tiles that a tangent reaches turn by one angle, so what is found for the first is kept.
ghost use Rattle.std.specs.Prelude.{◌≡◌, ◌*◌, ◌<◌};
ghost use Rattle.rotation.specs.Rotation.{angle_of};
ghost use Rattle.sizes.specs.Sizes.{most_processors};
ghost use Rattle.array.specs.Angles.{Known};

use rotation::Angle;
use sizes::{MOST_PROCESSORS, MOST_TILES};

// The last angles that were found, each with the cosine of its tangent.
#[derive(Drop)]
pub struct Angles {
    known: [Angle; MOST_TILES],
    ghost are_known: { Known known },
}

impl Angles {
    // The angle of +0 everywhere.
    pub fn of_zero() -> Angles {
        Angles {
            known: [Angle::of_tangent(0.0); MOST_TILES],
        }
    }

    // The angle of the tangent t that passes along the row or column `along` and reaches the tile where it crosses `other`. A tile on the diagonal has
    // no use for it.
    pub fn of(&mut self, t: f64, tick: usize, along: usize, other: usize) -> Angle
        ensures { ¬ (along ≡ other) → result ≡ angle_of t }
    {
        if along == other {
            return Angle {
                tangent: t,
                cosine: 1.0,
            };
        }
        let at = place(tick, along, other);
        let angle = recalled(t, self.known[at]);
        self.known[at] = angle;
        angle
    }
}

// The angle of the tangent t, where one angle is known.
fn recalled(t: f64, old: Angle) -> Angle
    requires { old ≡ angle_of old.tangent }
    ensures { result ≡ angle_of t }
{
    if float64::same_bits(t, old.tangent) {
        old
    } else {
        Angle::of_tangent(t)
    }
}

// Where an angle is kept: a tangent moves by one tile a tick, so T - Δ is the same for all tiles that it reaches.
fn place(tick: usize, along: usize, other: usize) -> usize
    ensures { result < most_processors * most_processors }
{
    let left = tick.saturating_sub(tile_schedule::distance(along, other));
    along % MOST_PROCESSORS * MOST_PROCESSORS + left % MOST_PROCESSORS
}
