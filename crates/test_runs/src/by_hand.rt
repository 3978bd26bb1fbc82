// Runs by hand: the order, the sweeps, the length of the matrix, the matrix and a number of ticks. The answer
// is the refusal of the start, if it is refused, what the last tick answered, and the last record.
use crate::record;
use array::Array;
use std::io::{self, Read, Write};
use test_io::runs::LIMIT;
use test_io::{Stop, refusals, values, word};

// What stands for the answer of the last tick where there was none.
const NO_TICK: u64 = 3;

// A matrix longer than LIMIT ends the program.
pub fn answer_run<R: Read, W: Write>(input: &mut R, output: &mut W) -> Result<(), Stop> {
    let n = word(input)? as usize;
    let sweeps = word(input)? as usize;
    let entries = word(input)? as usize;
    let mut matrix = [0.0; LIMIT];
    let matrix = matrix.get_mut(..entries).ok_or(Stop::End)?;
    values::read_values(input, matrix)?;
    let ticks = word(input)?;
    let started = Array::start(n, sweeps, matrix);
    refusals::print_answer(output, started.answer)?;
    make_ticks(output, started.array, ticks)?;
    Ok(())
}

// Makes the ticks, each on the record that the call before it gave.
fn make_ticks<W: Write>(output: &mut W, first: Array, ticks: u64) -> io::Result<()> {
    let mut last = None;
    let mut array = first;
    for _ in 0..ticks {
        let ticked = array.tick();
        last = Some(ticked.answer);
        array = ticked.array;
    }
    test_io::print_word(output, last.map_or(NO_TICK, record::number_of))?;
    record::print_in_use(output, array)
}
