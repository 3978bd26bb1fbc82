// Which tiles the wires of a tile come from.
ghost use Rattle.std.specs.Prelude.{◌≡◌, ◌<◌, ◌≤◌};
ghost use Rattle.sizes.specs.Sizes.{most_processors};
ghost use Rattle.array.specs.Arrays.{near_of, Inside, nearer_of};

use sizes::MOST_PROCESSORS;
use std::cmp::Ordering;
use tile_wires::{Place, Quad};

// Where the tiles stand whose wires come in by each corner, along the row and along the column.
#[derive(Clone, Copy)]
pub struct Near {
    pub corners: Quad<usize>,
    pub row: usize,
    pub column: usize,
}

#[tactic(auto, unfolding(crate::specs::Arrays::near_of, crate::specs::Arrays::down_of))]
pub fn sources(place: Place) -> Near
    requires { (place.i ≤ place.last) × (place.j ≤ place.last) × (place.last < most_processors) }
    ensures places { result ≡ near_of place.last place.i place.j }
    ensures inside { Inside result }
{
    let Place { last, i, j } = place;
    // Rows and columns next to those at an edge are those at the edge.
    let above = i.saturating_sub(1);
    let before = j.saturating_sub(1);
    let below = last.min(i + 1);
    let beyond = last.min(j + 1);
    Near {
        corners: Quad {
            alpha: above * MOST_PROCESSORS + before,
            beta: above * MOST_PROCESSORS + beyond,
            gamma: below * MOST_PROCESSORS + before,
            delta: below * MOST_PROCESSORS + beyond,
        },
        row: i * MOST_PROCESSORS + nearer(i, j),
        column: nearer(j, i) * MOST_PROCESSORS + j,
    }
}

// One nearer to i than j, and j itself where it is i.
#[tactic(auto, unfolding(crate::specs::Arrays::nearer_of))]
fn nearer(i: usize, j: usize) -> usize
    requires { (i < most_processors) × (j < most_processors) }
    ensures value { result ≡ nearer_of i j }
    ensures inside { result < most_processors }
{
    match i.cmp(&j) {
        Ordering::Less => j - 1,
        Ordering::Equal => j,
        Ordering::Greater => j + 1,
    }
}
