// Refusals: the word refused and the number, then the row and the column where the refusal has them, each in a line of its own.
use refusal::Refusal;
use std::io::{self, Write};

// Writes a refusal, and nothing for a call that is accepted.
pub fn print_answer<W: Write>(output: &mut W, answer: Result<(), Refusal>) -> io::Result<()> {
    match answer {
        Ok(()) => Ok(()),
        Err(refused) => print_refusal(output, refused),
    }
}

pub fn print_refusal<W: Write>(output: &mut W, refused: Refusal) -> io::Result<()> {
    crate::print_number(output, b"refused", u64::from(u8::from(refused)))?;
    if let Some((row, column)) = refused.place() {
        crate::print_number(output, b"row", row as u64)?;
        crate::print_number(output, b"column", column as u64)?;
    }
    Ok(())
}
