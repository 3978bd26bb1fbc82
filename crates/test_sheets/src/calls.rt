// The calls. Each is lent the first parts of buffers, which are filled with the lowest bits of a word: what it takes is read into them, and
// then what it answers and gives is written. A length above that of its buffer ends the program.
use crate::codes::{code_in, print_codes, read_codes};
use crate::packed::{print_bytes, read_bytes};
use refusal::Refusal;
use sheet_reader::Sizes;
use std::io::{self, Read, Write};
use test_io::runs::LIMIT;
use test_io::{Stop, refusals, values, word};

const SHEET: usize = 4900;

const CODES: usize = 40;

// Reads the lengths of the sheet, of the codes and of the matrix, what the last two are filled with, and the sheet. The answer is the order
// and the sweeps, or the refusal, and in both cases the codes and the matrix.
pub fn answer_reading<R: Read, W: Write>(input: &mut R, output: &mut W) -> Result<(), Stop> {
    let sheet_size = word(input)? as usize;
    let codes_size = word(input)? as usize;
    let matrix_size = word(input)? as usize;
    let code = code_in(word(input)?);
    let value = float64::from_bits(word(input)?);
    let mut sheet = [0; SHEET];
    let mut codes = [code; CODES];
    let mut matrix = [value; LIMIT];
    let sheet = sheet.get_mut(..sheet_size).ok_or(Stop::End)?;
    let codes = codes.get_mut(..codes_size).ok_or(Stop::End)?;
    let matrix = matrix.get_mut(..matrix_size).ok_or(Stop::End)?;
    read_bytes(input, sheet)?;
    print_reading(output, sheet_reader::read(sheet, codes, matrix))?;
    print_codes(output, codes)?;
    values::print_values(output, matrix)?;
    Ok(())
}

fn print_reading<W: Write>(output: &mut W, reading: Result<Sizes, Refusal>) -> io::Result<()> {
    match reading {
        Ok(sizes) => {
            test_io::print_word(output, sizes.n as u64)?;
            test_io::print_word(output, sizes.sweeps as u64)
        }
        Err(refused) => refusals::print_refusal(output, refused),
    }
}

// Reads the order, the sweeps, the lengths of the codes, of the matrix and of the sheet, what the last is filled with, the codes and the
// matrix. The answer is how many bytes are written, or the refusal, and in both cases the sheet.
pub fn answer_writing<R: Read, W: Write>(input: &mut R, output: &mut W) -> Result<(), Stop> {
    let n = word(input)? as usize;
    let sweeps = word(input)? as usize;
    let codes_size = word(input)? as usize;
    let matrix_size = word(input)? as usize;
    let sheet_size = word(input)? as usize;
    let byte = byte_in(word(input)?);
    let mut codes = [0; CODES];
    let mut matrix = [0.0; LIMIT];
    let mut sheet = [byte; SHEET];
    let codes = codes.get_mut(..codes_size).ok_or(Stop::End)?;
    let matrix = matrix.get_mut(..matrix_size).ok_or(Stop::End)?;
    let sheet = sheet.get_mut(..sheet_size).ok_or(Stop::End)?;
    read_codes(input, codes)?;
    values::read_values(input, matrix)?;
    print_count(output, sheet_writer::write(n, sweeps, codes, matrix, sheet))?;
    print_bytes(output, sheet)?;
    Ok(())
}

// Reads the lengths of the first sheet, of the second and of the lent one, what the last is filled with, and the two sheets. The answer is
// that of a writing.
pub fn answer_joining<R: Read, W: Write>(input: &mut R, output: &mut W) -> Result<(), Stop> {
    let first_size = word(input)? as usize;
    let second_size = word(input)? as usize;
    let sheet_size = word(input)? as usize;
    let byte = byte_in(word(input)?);
    let mut first = [0; SHEET];
    let mut second = [0; SHEET];
    let mut sheet = [byte; SHEET];
    let first = first.get_mut(..first_size).ok_or(Stop::End)?;
    let second = second.get_mut(..second_size).ok_or(Stop::End)?;
    let sheet = sheet.get_mut(..sheet_size).ok_or(Stop::End)?;
    read_bytes(input, first)?;
    read_bytes(input, second)?;
    print_count(output, sheet_join::join(first, second, sheet))?;
    print_bytes(output, sheet)?;
    Ok(())
}

fn print_count<W: Write>(output: &mut W, written: Result<usize, Refusal>) -> io::Result<()> {
    match written {
        Ok(count) => test_io::print_word(output, count as u64),
        Err(refused) => refusals::print_refusal(output, refused),
    }
}

// The lowest byte of a word.
fn byte_in(word: u64) -> u8 {
    (word % 256) as u8
}
