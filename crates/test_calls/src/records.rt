// The records of steps: the order, the length of the matrix, the step, the length of a lent row, the word that the row is filled with, 1 if
// it is filled as exact and else 0, and the matrix. The answer is the refusal of a row of that length, if it is refused, the refusal of a row
// for the most processors, and of each of its records the words and whether its roots were exact.
use sizes::MOST_PROCESSORS;
use std::io::{self, Read, Write};
use step_records::Record;
use test_io::runs::LIMIT;
use test_io::{Stop, refusals, values, word};

// A matrix longer than LIMIT ends the program.
pub fn answer_step<R: Read, W: Write>(input: &mut R, output: &mut W) -> Result<(), Stop> {
    let n = word(input)? as usize;
    let entries = word(input)? as usize;
    let step = word(input)? as usize;
    let room = word(input)? as usize;
    let fill = float64::from_bits(word(input)?);
    let exact = word(input)? == 1;
    let mut buffer = [0.0; LIMIT];
    let matrix = buffer.get_mut(..entries).ok_or(Stop::End)?;
    values::read_values(input, matrix)?;
    let verdict = step_records::verdict(n, matrix, room);
    let recorded = step_records::in_row(
        n,
        matrix,
        step,
        [filled_with(fill, exact); MOST_PROCESSORS],
    );
    refusals::print_answer(output, verdict)?;
    refusals::print_answer(output, recorded.answer)?;
    print_row(output, &recorded.row)?;
    Ok(())
}

// What every record of a row holds before a call.
fn filled_with(fill: f64, exact: bool) -> Record {
    Record {
        t: fill,
        c: fill,
        s: fill,
        exact,
    }
}

fn print_row<W: Write>(output: &mut W, row: &[Record; MOST_PROCESSORS]) -> io::Result<()> {
    for record in row {
        print_record(output, *record)?;
    }
    Ok(())
}

fn print_record<W: Write>(output: &mut W, record: Record) -> io::Result<()> {
    values::print_values(output, &[record.t, record.c, record.s])?;
    values::print_exactness(output, record.exact)
}
