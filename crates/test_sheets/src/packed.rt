// Bytes as words, eight to a word, the first in the highest byte. The last word is filled up with zero bytes.
use std::io::{self, Read, Write};
use test_io::{Stop, word};

pub fn read_bytes<R: Read>(input: &mut R, bytes: &mut [u8]) -> Result<(), Stop> {
    for chunk in bytes.chunks_mut(8) {
        let eight = word(input)?.to_be_bytes();
        chunk.copy_from_slice(&eight[..chunk.len()]);
    }
    Ok(())
}

pub fn print_bytes<W: Write>(output: &mut W, bytes: &[u8]) -> io::Result<()> {
    for chunk in bytes.chunks(8) {
        let mut eight = [0; 8];
        eight[..chunk.len()].copy_from_slice(chunk);
        test_io::print_word(output, u64::from_be_bytes(eight))?;
    }
    Ok(())
}
