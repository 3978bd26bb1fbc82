#![tactic(auto)]
// The array of tiles (document 01, "The array").
ghost use Rattle.std.specs.Prelude.{◌≡◌, ◌+◌, ◌<◌, ◌≤◌};
ghost use Rattle.sizes.specs.Sizes.{most_processors};
ghost use Rattle.runs.specs.Cells.{setting};
ghost use Rattle.array.specs.Arrays.{tile_of, the_array, Ticks};
ghost use Rattle.array.specs.Halves.{turned_in, turned, settled};
ghost use Rattle.array.specs.Runs.{start_array, no_array, Starts, GoesOn, ticked};

use crate::angles::Angles;
use refusal::Refusal;
use sizes::{MOST_PROCESSORS, MOST_TILES};
use tile::{Received, Tile};
use tile_schedule::Progress;
use tile_wires::Place;

mod angles;
mod wiring;

// The order, the sweeps, the number of the next tick and the tiles: that in row i and column j, from 0, is at i * MOST_PROCESSORS + j.
#[derive(Clone, Copy)]
pub struct Array {
    pub n: usize,
    pub sweeps: usize,
    pub tick: usize,
    pub tiles: [Tile; MOST_TILES],
}

// What a start answers, and the array beside it.
#[derive(Clone, Copy)]
pub struct Started {
    pub answer: Result<(), Refusal>,
    pub array: Array,
}

// What a tick answers, and the array beside it.
#[derive(Clone, Copy)]
pub struct Ticked {
    pub answer: Result<Progress, Refusal>,
    pub array: Array,
}

impl Array {
    // The array before its first tick. A refused start gives zeros only.
    pub fn start(n: usize, sweeps: usize, matrix: &[f64]) -> Started
        ensures { Starts n sweeps matrix.now result }
    {
        let answer = runs::verdict(n, sweeps, matrix, matrix.len(), matrix.len());
        let array = match answer {
            Ok(()) => Array::of_matrix(n, sweeps, matrix),
            Err(_) => Array::none(),
        };
        Started { answer, array }
    }

    // Cells from a matrix of order n and from the identity, wires at +0.
    pub fn of_matrix(n: usize, sweeps: usize, matrix: &[f64]) -> Array
        ensures { result ≡ start_array n sweeps matrix.now }
    {
        // Stays a loop over a first array: array::from_fn takes a copy of the record more, 39 kB of the stack that the header promises.
        let mut tiles = [tile_start::zero_tile(); MOST_TILES];
        for (k, tile) in tiles.iter_mut().enumerate() {
            *tile = tile_start::tile_at(n, k / MOST_PROCESSORS, k % MOST_PROCESSORS, matrix);
        }
        Array {
            n,
            sweeps,
            tick: 0,
            tiles,
        }
    }

    // Zeros only.
    #[tactic(auto, unfolding(crate::specs::Runs::no_array, lists::specs::Tabulate::tabulate))]
    fn none() -> Array
        ensures { result ≡ no_array }
    {
        Array {
            n: 0,
            sweeps: 0,
            tick: 0,
            tiles: [tile_start::zero_tile(); MOST_TILES],
        }
    }

    #[tactic(auto, unfolding(crate::specs::Runs::ticked, crate::specs::Runs::next_array))]
    pub fn tick(self) -> Ticked
        ensures { Ticks self result }
    {
        let answer = tile_schedule::answer_to(self.n, self.sweeps, self.tick);
        // Stays an early return: where a match gives the array, a tick that is not made copies the record twice more.
        if !matches!(answer, Ok(Progress::Made)) {
            return Ticked {
                answer,
                array: self,
            };
        }
        Ticked {
            answer,
            array: self.after(1),
        }
    }

    // The array after `count` more ticks, as many as are made.
    #[tactic(auto, using(crate::proofs::ArrayEnd::none_made, crate::proofs::ArrayEnd::at_most_left))]
    pub fn ticks(self, count: usize) -> Array
        ensures { result ≡ ticked count self }
    {
        let left = tile_schedule::ticks_left(self.n, self.sweeps, self.tick);
        if left == 0 {
            return self;
        }
        self.after(count.min(left))
    }

    // The array after `count` more ticks, which are all made.
    pub fn after(self, count: usize) -> Array
        requires { GoesOn self count }
        ensures { result ≡ ticked count self }
    {
        let mut array = self;
        let mut angles = Angles::of_zero();
        for tick in self.tick..self.tick + count {
            array.turn(&mut angles);
            array.settle();
            array.tick = tick + 1;
        }
        array
    }

    // The first half of a tick: all tiles turn whose cells change. A tile does not set its parameter wires while another takes what they bring.
    #[tactic(auto, using(sizes::proofs::Orders::order_half))]
    fn turn(&mut self, angles: &mut Angles)
        requires { GoesOn self.old 1 }
        ensures { self.new ≡ record self.old { tiles = turned self.old } }
    {
        let processors = sizes::processors_of(self.n);
        let steps = sizes::steps_of(self.n, self.sweeps);
        for i in 0..processors {
            for j in 0..processors {
                if tile_schedule::changes(steps, self.tick, i, j) {
                    let last = processors - 1;
                    let tile = self.turned(steps, Place { last, i, j }, angles);
                    self.tiles[i * MOST_PROCESSORS + j] = tile;
                }
            }
        }
    }

    // A tile as it turns.
    fn turned(&self, steps: usize, place: Place, angles: &mut Angles) -> Tile
        requires { (place.i ≤ place.last) × (place.j ≤ place.last) × (place.last < most_processors) }
        ensures { result ≡ tile_of (turned_in (setting self.now.n) (place.last + 1) steps self.now.tick (the_array self.now.tiles) place.i place.j) }
    {
        let Place { i, j, .. } = place;
        let from = wiring::sources(place);
        let received = Received {
            row: angles.of(self.tiles[from.row].row_wire, self.tick, i, j),
            column: angles.of(self.tiles[from.column].column_wire, self.tick, j, i),
        };
        let brought = tile::brought(from.corners.map(|at| self.tiles[at]), place);
        let tile = self.tiles[i * MOST_PROCESSORS + j];
        tile.turned(self.n, brought, received, steps, self.tick, place)
    }

    // The second half: all tiles set their cell wires and their marks.
    #[tactic(auto, using(sizes::proofs::Orders::order_half))]
    fn settle(&mut self)
        requires { GoesOn self.old 1 }
        ensures { self.new ≡ record self.old { tiles = settled self.old } }
    {
        let processors = sizes::processors_of(self.n);
        let steps = sizes::steps_of(self.n, self.sweeps);
        for i in 0..processors {
            for j in 0..processors {
                let last = processors - 1;
                let at = i * MOST_PROCESSORS + j;
                self.tiles[at] = self.tiles[at].after(Place { last, i, j }, steps, self.tick);
            }
        }
    }
}
