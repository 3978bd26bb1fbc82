// Codes as words, one to a word, in its lowest 16 bits.
use std::io::{self, Read, Write};
use test_io::{Stop, word};

pub fn read_codes<R: Read>(input: &mut R, codes: &mut [u16]) -> Result<(), Stop> {
    for code in codes {
        *code = code_in(word(input)?);
    }
    Ok(())
}

pub fn print_codes<W: Write>(output: &mut W, codes: &[u16]) -> io::Result<()> {
    for code in codes {
        test_io::print_word(output, u64::from(*code))?;
    }
    Ok(())
}

// The code in a word.
pub fn code_in(word: u64) -> u16 {
    (word % 65536) as u16
}
