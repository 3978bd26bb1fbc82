#![tactic(auto)]
// One tile of the array in one tick (document 01, "The array").
ghost use Rattle.std.specs.Prelude.{◌≡◌};
ghost use Rattle.systolic.specs.Tiles.{distance, step_at, action_at, settled_tile};
ghost use Rattle.tile_wires.specs.Wires.{incoming_part};
ghost use Rattle.runs.specs.Cells.{Setting};
ghost use Rattle.tile.specs.Tiles.{the_tile, operations};
ghost use Rattle.tile.specs.Turned.{turned_of};

use crate::cells::Work;
use rotation::Angle;
use runs::Counts;
use tile_wires::{Part, Place, Quad};

mod cells;

// The cells of a tile, its outgoing wires, each named after the corner that it leaves by, its outgoing parameter wires along its row and
// along its column, its mark, and what a tile on the diagonal counts.
#[derive(Clone, Copy)]
pub struct Tile {
    pub cells: Part,
    pub wires: Part,
    pub row_wire: f64,
    pub column_wire: f64,
    pub mark: bool,
    pub counts: Counts,
}

// The angles whose tangents a tile receives along its row and along its column.
#[derive(Clone, Copy)]
pub struct Received {
    pub row: Angle,
    pub column: Angle,
}

impl Tile {
    // The tile with its cells, its parameter wires and its counts as they are after a tick of a run of order n and of so many steps. Its cell wires
    // bring the cells `brought`.
    #[tactic(auto, unfolding(crate::specs::Turned::turned_of))]
    pub fn turned(
        self,
        n: usize,
        brought: Part,
        received: Received,
        steps: usize,
        tick: usize,
        place: Place,
    ) -> Tile
        ensures { let away = distance place.i place.j in
            result ≡ turned_of n (step_at away tick) (action_at steps away tick) self brought place.i place.j received.row received.column }
    {
        let action = tile_schedule::action_at(steps, place.i, place.j, tick);
        let before = Work {
            cells: cells::taken(action, self.cells, brought),
            row: self.row_wire,
            column: self.column_wire,
            counts: self.counts,
        };
        let after = if tile_schedule::rotates(action) {
            cells::rotated(n, tick, before, place, received)
        } else {
            before
        };
        Tile {
            cells: after.cells,
            row_wire: after.row,
            column_wire: after.column,
            counts: after.counts,
            ..self
        }
    }

    // A turned tile with its cell wires and its mark as they are after the tick, whatever the run's setting.
    pub fn after(self, place: Place, steps: usize, tick: usize) -> Tile
        ensures { (s : Setting) → the_tile result
            ≡ settled_tile (operations s) place.last place.i place.j (action_at steps (distance place.i place.j) tick) (the_tile self) }
    {
        let action = tile_schedule::action_at(steps, place.i, place.j, tick);
        let phase = tile_schedule::phase_in(action);
        Tile {
            wires: tile_wires::after(phase, place, self.cells, self.wires),
            mark: cells::is_marked(self.mark, self.cells),
            ..self
        }
    }
}

// The cells that the wires bring to the tile in a place, from the tiles that its corners are joined with.
pub fn brought(tiles: Quad<Tile>, place: Place) -> Part
    ensures { result ≡ incoming_part tiles.alpha.wires tiles.beta.wires tiles.gamma.wires tiles.delta.wires place.last place.i place.j }
{
    tile_wires::incoming(tiles.map(|tile| tile.wires), place)
}
