// The angles of a step's pairs, found before any pair is turned.
ghost use Rattle.std.specs.Prelude.{◌≡◌, not, ℕ, ◌<◌, ◌≤◌, get_or};
ghost use Rattle.lists.specs.Bounded.{count};
ghost use Rattle.sizes.specs.Sizes.{largest_order, processors_of, still_of};
ghost use Rattle.rotation.specs.Rotation.{angle_of};
ghost use Rattle.runs.specs.Blocks.{ruled_exact};
ghost use Rattle.plain_run.specs.Angles.{no_tangent, no_angle, exact_by};

use root::Root;
use rotation::Angle;
use sizes::MOST_PROCESSORS;

// The angles of a step's pairs, and how many of these have a rounded root.
// Stays an array of the most processors: the library has no heap.
#[derive(Clone, Copy)]
pub struct Step {
    pub angles: [Angle; MOST_PROCESSORS],
    pub rounded: usize,
}

// The angles of pairs with these tangents, but for processors that are always still, and how many have a rounded root.
pub fn angles_of(n: usize, tangents: [Root; MOST_PROCESSORS]) -> Step
    requires { n ≤ largest_order }
    ensures { ((k : ℕ) → still_of n ≤ k → k < processors_of n → get_or result.angles k no_angle ≡ angle_of (get_or tangents k no_tangent).value)
        × (result.rounded ≡ count (λ k. not (ruled_exact n k (exact_by (get_or tangents k no_tangent)))) (processors_of n)) }
{
    let none = Angle {
        tangent: 0.0,
        cosine: 0.0,
    };
    let mut angles = [none; MOST_PROCESSORS];
    let mut rounded = 0;
    // Stays an index: the loop begins at a later processor, and a chain over two arrays, one of them written, would be no plainer.
    for k in sizes::still_of(n)..sizes::processors_of(n) {
        let tangent = tangents[k];
        let cosine = rotation::cosine_of(tangent.value);
        angles[k] = Angle {
            tangent: tangent.value,
            cosine: cosine.value,
        };
        let exact = tangent.exact && cosine.exact;
        rounded += !exact as usize;
    }
    Step { angles, rounded }
}
