#![tactic(auto)]
// Reads cases of sheets, one word to a line, and writes what comes of each. A case begins with the number of
// its kind: 0 is a reading, 1 a writing and 2 a joining.
// tools/sheet_vectors.py writes the input and the expected output.
use std::io::{self, Read, Write};
use test_io::{Stop, word};

mod calls;
mod codes;
mod packed;

// A read or a write that fails ends the program with its error.
fn main(rt: HostRuntime) -> io::Result<()> {
    let mut input = rt.stdin();
    let mut output = rt.stdout();
    test_io::answer_all(|| answer_case(&mut input, &mut output))
}

fn answer_case<R: Read, W: Write>(input: &mut R, output: &mut W) -> Result<(), Stop> {
    match word(input)? {
        0 => calls::answer_reading(input, output),
        1 => calls::answer_writing(input, output),
        2 => calls::answer_joining(input, output),
        _ => Err(Stop::End),
    }
}
