#![tactic(auto)]
// The wires of a tile: what leaves and what comes in by each corner (document 01, "The array").
ghost use Rattle.std.specs.Prelude.{◌≡◌};
ghost use Rattle.tile_wires.specs.Wires.{interchanged, across_of, wires_of, part_wires, corner_of, incoming_quad, incoming_part};

mod phases;

// What belongs to the four corners of a tile, row by row: α β / γ δ. Of f64 it is a 2 by 2 part of a matrix.
#[derive(Clone, Copy)]
pub struct Quad<T> {
    pub alpha: T,
    pub beta: T,
    pub gamma: T,
    pub delta: T,
}

// A part of the matrix and the like part of the eigenvectors.
#[derive(Clone, Copy)]
pub struct Part {
    pub matrix: Quad<f64>,
    pub vectors: Quad<f64>,
}

// The place of a tile in an array: its row i and its column j, from 0, and the last row and column.
#[derive(Clone, Copy)]
pub struct Place {
    pub last: usize,
    pub i: usize,
    pub j: usize,
}

// The wires of a tile after a phase, or after a tick that is in none.
#[tactic(auto, unfolding(crate::specs::Wires::part_wires))]
pub fn after(phase: Option<usize>, place: Place, cells: Part, old: Part) -> Part
    ensures { result ≡ part_wires phase place.last place.i place.j cells old }
{
    Part {
        matrix: quad_after(phase, place, cells.matrix, old.matrix),
        vectors: quad_after(phase, place, cells.vectors, old.vectors),
    }
}

#[tactic(auto, unfolding(crate::specs::Wires::wires_of, crate::specs::Wires::order_of))]
fn quad_after(phase: Option<usize>, place: Place, cells: Quad<f64>, old: Quad<f64>) -> Quad<f64>
    ensures { result ≡ wires_of phase place.last place.i place.j cells old }
{
    let out = interchange(place.i, place.j, cells);
    phases::set(phase, phases::edge(place), place.i.cmp(&place.j), out, old)
}

// What leaves by each corner (document 000, Algorithm Interchange).
#[tactic(auto, unfolding(crate::specs::Wires::interchanged))]
fn interchange(i: usize, j: usize, q: Quad<f64>) -> Quad<f64>
    ensures { result ≡ interchanged i j q }
{
    if i == 0 {
        across(j, q)
    } else {
        let below = Quad {
            alpha: q.gamma,
            beta: q.delta,
            gamma: q.alpha,
            delta: q.beta,
        };
        across(j, below)
    }
}

#[tactic(auto, unfolding(crate::specs::Wires::across_of))]
fn across(j: usize, q: Quad<f64>) -> Quad<f64>
    ensures { result ≡ across_of j q }
{
    if j == 0 {
        q
    } else {
        Quad {
            alpha: q.beta,
            beta: q.alpha,
            gamma: q.delta,
            delta: q.gamma,
        }
    }
}

// What comes in by each corner, from the wires of the tiles that it is joined with.
#[tactic(auto, unfolding(crate::specs::Wires::incoming_part))]
pub fn incoming(wires: Quad<Part>, place: Place) -> Part
    ensures { result ≡ incoming_part wires.alpha wires.beta wires.gamma wires.delta place.last place.i place.j }
{
    Part {
        matrix: incoming_quad(wires.map(|part| part.matrix), place),
        vectors: incoming_quad(wires.map(|part| part.vectors), place),
    }
}

#[tactic(auto, unfolding(crate::specs::Wires::incoming_quad))]
fn incoming_quad(wires: Quad<Quad<f64>>, place: Place) -> Quad<f64>
    ensures { result ≡ incoming_quad wires.alpha wires.beta wires.gamma wires.delta place.last place.i place.j }
{
    let Place { last, i, j } = place;
    Quad {
        alpha: wires.alpha.corner(i > 0, j > 0),
        beta: wires.beta.corner(i > 0, j == last),
        gamma: wires.gamma.corner(i == last, j > 0),
        delta: wires.delta.corner(i == last, j == last),
    }
}

impl<T> Quad<T> {
    // What f makes of that of each corner.
    pub fn map<U, F: Fn(T) -> U>(self, f: F) -> Quad<U>
        requires alpha { F.pre f self.alpha }
        requires beta { F.pre f self.beta }
        requires gamma { F.pre f self.gamma }
        requires delta { F.pre f self.delta }
        ensures alpha { F.post f self.alpha result.alpha }
        ensures beta { F.post f self.beta result.beta }
        ensures gamma { F.post f self.gamma result.gamma }
        ensures delta { F.post f self.delta result.delta }
    {
        let Quad {
            alpha,
            beta,
            gamma,
            delta,
        } = self;
        Quad {
            alpha: f(alpha),
            beta: f(beta),
            gamma: f(gamma),
            delta: f(delta),
        }
    }
}

impl Quad<f64> {
    // The corner in the lower row or the upper, in the right column or the left.
    #[tactic(auto, unfolding(crate::specs::Wires::corner_of))]
    pub fn corner(self, lower: bool, right: bool) -> f64
        ensures { result ≡ corner_of lower right self }
    {
        match (lower, right) {
            (false, false) => self.alpha,
            (false, true) => self.beta,
            (true, false) => self.gamma,
            (true, true) => self.delta,
        }
    }
}
