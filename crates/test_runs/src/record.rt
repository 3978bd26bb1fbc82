// What is written of a record: the order, the sweeps, the tick, and some of the tiles. Of a tile: its cells, the
// wires that leave by its corners, those that leave along its row and its column, its mark, its turns, and its rounded pairs.
use array::Array;
use refusal::Refusal;
use sizes::{MOST_PROCESSORS, MOST_TILES};
use std::io::{self, Write};
use test_io::values;
use tile::Tile;
use tile_schedule::Progress;
use tile_wires::{Part, Quad};

// What a tick answered, as a number.
pub fn number_of(answer: Result<Progress, Refusal>) -> u64 {
    match answer {
        Ok(Progress::Made) => 0,
        Ok(Progress::Stopped) => 1,
        Err(_) => 2,
    }
}

// Writes a record with its tiles in use, row by row.
pub fn print_in_use<W: Write>(output: &mut W, array: Array) -> io::Result<()> {
    print_sizes(output, array.n, array.sweeps, array.tick)?;
    let processors = sizes::processors_of(array.n);
    for row in array.tiles.chunks(MOST_PROCESSORS).take(processors) {
        print_row(output, row, processors)?;
    }
    Ok(())
}

// Writes a record with its tiles P_11, P_12, P_21 and the last.
pub fn print_sample<W: Write>(output: &mut W, array: Array) -> io::Result<()> {
    print_sizes(output, array.n, array.sweeps, array.tick)?;
    print_tile(output, array.tiles[0])?;
    print_tile(output, array.tiles[1])?;
    print_tile(output, array.tiles[MOST_PROCESSORS])?;
    print_tile(output, array.tiles[MOST_TILES - 1])
}

fn print_sizes<W: Write>(output: &mut W, n: usize, sweeps: usize, tick: usize) -> io::Result<()> {
    test_io::print_word(output, n as u64)?;
    test_io::print_word(output, sweeps as u64)?;
    test_io::print_word(output, tick as u64)
}

// Writes the tiles of a row that are in use.
fn print_row<W: Write>(output: &mut W, row: &[Tile], processors: usize) -> io::Result<()> {
    for tile in row.iter().take(processors) {
        print_tile(output, *tile)?;
    }
    Ok(())
}

fn print_tile<W: Write>(output: &mut W, tile: Tile) -> io::Result<()> {
    print_part(output, tile.cells)?;
    print_part(output, tile.wires)?;
    values::print_values(output, &[tile.row_wire, tile.column_wire])?;
    test_io::print_word(output, u64::from(tile.mark))?;
    test_io::print_word(output, u64::from(tile.counts.turns))?;
    test_io::print_word(output, u64::from(tile.counts.rounded))
}

fn print_part<W: Write>(output: &mut W, part: Part) -> io::Result<()> {
    print_quad(output, part.matrix)?;
    print_quad(output, part.vectors)
}

fn print_quad<W: Write>(output: &mut W, quad: Quad<f64>) -> io::Result<()> {
    values::print_values(output, &[quad.alpha, quad.beta, quad.gamma, quad.delta])
}
