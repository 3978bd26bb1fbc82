#![tactic(auto)]
// Reads cases of the small calls, one word to a line, and writes what comes of each. A case begins with the number of its kind: 0 is a square
// root, 1 the parameters of a pair, 2 a list of pairs, 3 the records of a step and 4 a forecast.
// tools/call_vectors.py writes the input and the expected output.
use std::io::{self, Read, Write};
use test_io::{Stop, word};

mod forecasts;
mod orderings;
mod records;
mod roots;
mod rotations;

// A read or a write that fails ends the program with its error.
fn main(rt: HostRuntime) -> io::Result<()> {
    let mut input = rt.stdin();
    let mut output = rt.stdout();
    test_io::answer_all(|| answer_case(&mut input, &mut output))
}

fn answer_case<R: Read, W: Write>(input: &mut R, output: &mut W) -> Result<(), Stop> {
    match word(input)? {
        0 => roots::answer_root(input, output),
        1 => rotations::answer_pair(input, output),
        2 => orderings::answer_list(input, output),
        3 => records::answer_step(input, output),
        4 => forecasts::answer_forecast(input, output),
        _ => Err(Stop::End),
    }
}
