// Ticks of wild records: the order, the sweeps, the tick, the word that every cell and line of all tiles holds, and
// the turns and the rounded pairs of every tile. The answer is what the tick answered, the number of the refusal if it is refused, and the
// record.
use crate::record;
use array::Array;
use refusal::Refusal;
use runs::Counts;
use sizes::MOST_TILES;
use std::io::{self, Read, Write};
use test_io::{Stop, word};
use tile::Tile;
use tile_schedule::Progress;
use tile_wires::{Part, Quad};

// Reads a record and answers its tick.
pub fn answer_tick<R: Read, W: Write>(input: &mut R, output: &mut W) -> Result<(), Stop> {
    let n = word(input)? as usize;
    let sweeps = word(input)? as usize;
    let tick = word(input)? as usize;
    let value = float64::from_bits(word(input)?);
    let turns = word(input)?;
    let rounded = word(input)?;
    let counts = Counts {
        turns: count_in(turns)?,
        rounded: count_in(rounded)?,
    };
    let tile = filled_with(value, counts);
    let array = Array {
        n,
        sweeps,
        tick,
        tiles: [tile; MOST_TILES],
    };
    let ticked = array.tick();
    print_progress(output, ticked.answer)?;
    record::print_sample(output, ticked.array)?;
    Ok(())
}

// The count in a word. One above the most that a tile counts to ends the program.
fn count_in(word: u64) -> Result<u16, Stop> {
    u16::try_from(word).map_err(|_| Stop::End)
}

// The tile with one value in every cell and line and these counts, not marked.
fn filled_with(value: f64, counts: Counts) -> Tile {
    let quad = Quad {
        alpha: value,
        beta: value,
        gamma: value,
        delta: value,
    };
    let part = Part {
        matrix: quad,
        vectors: quad,
    };
    Tile {
        cells: part,
        wires: part,
        row_wire: value,
        column_wire: value,
        mark: false,
        counts,
    }
}

// Writes what a tick answered and, if it is refused, the number of the refusal.
fn print_progress<W: Write>(output: &mut W, answer: Result<Progress, Refusal>) -> io::Result<()> {
    test_io::print_word(output, record::number_of(answer))?;
    match answer {
        Ok(_) => Ok(()),
        Err(refused) => test_io::print_word(output, u64::from(u8::from(refused))),
    }
}
