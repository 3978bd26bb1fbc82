// In which phase a wire is set.
ghost use Rattle.std.specs.Prelude.{◌≡◌};
ghost use Rattle.tile_wires.specs.Wires.{edge_of, set_of, set_in0, set_in1, set_in2};

use crate::{Place, Quad};
use std::cmp::Ordering;

// The tile's position at the edges: 1 in the first row or column, 2 in the last, 3 in both, 0 in none.
// Stays a number: document 01 names the form "a match on the phase and a number for the tile's edge position chooses the line to set".
#[tactic(auto, unfolding(crate::specs::Wires::edge_of))]
pub fn edge(place: Place) -> usize
    ensures { result ≡ edge_of place.last place.i place.j }
{
    let Place { last, i, j } = place;
    match (i == 0 || j == 0, i == last || j == last) {
        (false, false) => 0,
        (true, false) => 1,
        (false, true) => 2,
        (true, true) => 3,
    }
}

// The wires after a phase (document 003, Program 3): those that are set carry `out`, the others keep their values. `order` is that of the tile's
// row and column.
// Stays a match on the phase's number: document 01 names the form "a match on the phase and a number for the tile's edge position".
#[tactic(auto, unfolding(crate::specs::Wires::set_of))]
pub fn set(
    phase: Option<usize>,
    edge: usize,
    order: Ordering,
    out: Quad<f64>,
    old: Quad<f64>,
) -> Quad<f64>
    ensures { result ≡ set_of phase edge order out old }
{
    match phase {
        Some(0) => set_in_0(order, out, old),
        Some(1) => set_in_1(edge, out, old),
        Some(2) => set_in_2(edge, order, out, old),
        _ => old,
    }
}

#[tactic(auto, unfolding(crate::specs::Wires::set_in0))]
fn set_in_0(order: Ordering, out: Quad<f64>, old: Quad<f64>) -> Quad<f64>
    ensures { result ≡ set_in0 order out old }
{
    match order {
        Ordering::Less => Quad {
            gamma: out.gamma,
            ..old
        },
        Ordering::Equal => old,
        Ordering::Greater => Quad {
            beta: out.beta,
            ..old
        },
    }
}

#[tactic(auto, unfolding(crate::specs::Wires::set_in1))]
fn set_in_1(edge: usize, out: Quad<f64>, old: Quad<f64>) -> Quad<f64>
    ensures { result ≡ set_in1 edge out old }
{
    match edge {
        0 => old,
        1 => Quad {
            alpha: out.alpha,
            ..old
        },
        2 => Quad {
            delta: out.delta,
            ..old
        },
        _ => Quad {
            alpha: out.alpha,
            delta: out.delta,
            ..old
        },
    }
}

#[tactic(auto, unfolding(crate::specs::Wires::set_in2, crate::specs::Wires::set_in1))]
fn set_in_2(edge: usize, order: Ordering, out: Quad<f64>, old: Quad<f64>) -> Quad<f64>
    ensures { result ≡ set_in2 edge order out old }
{
    let inner = set_in_1(3 - edge % 4, out, old);
    match order {
        Ordering::Less => Quad {
            beta: out.beta,
            ..inner
        },
        Ordering::Equal => Quad {
            beta: out.beta,
            gamma: out.gamma,
            ..inner
        },
        Ordering::Greater => Quad {
            gamma: out.gamma,
            ..inner
        },
    }
}
