// Lists of pairs: the order and the step. The answer is the refusal, if it is refused, and in both cases the registers, eight to a word:
// left 1 to 8, left 9 to 16, right 1 to 8, right 9 to 16.
use sizes::MOST_PROCESSORS;
use std::io::{self, Read, Write};
use test_io::{Stop, refusals, word};

pub fn answer_list<R: Read, W: Write>(input: &mut R, output: &mut W) -> Result<(), Stop> {
    let n = word(input)? as usize;
    let step = word(input)? as usize;
    let listed = ordering::pairs(n, step);
    refusals::print_answer(output, listed.answer)?;
    print_row(output, &listed.registers.left)?;
    print_row(output, &listed.registers.right)?;
    Ok(())
}

fn print_row<W: Write>(output: &mut W, row: &[usize; MOST_PROCESSORS]) -> io::Result<()> {
    for eight in row.chunks(8) {
        test_io::print_word(output, u64::from_be_bytes(bytes_of(eight)))?;
    }
    Ok(())
}

// Registers as bytes. One that is above 255 is 255, which no line has as its number.
fn bytes_of(registers: &[usize]) -> [u8; 8] {
    let mut bytes = [0; 8];
    for (byte, register) in bytes.iter_mut().zip(registers) {
        *byte = (*register).min(255) as u8;
    }
    bytes
}
