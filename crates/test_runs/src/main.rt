#![tactic(auto)]
// Reads cases of runs, one word to a line, and writes what comes of each. A case begins with the number of its kind: 0 is a whole run by
// the array, 1 a run by hand, 2 a tick of a wild record and 3 a run by plain sweeps.
// tools/array_vectors.py writes the input and the expected output.
use std::io::{self, Read, Write};
use test_io::{Stop, word};

mod by_hand;
mod lent;
mod record;
mod wild;

// A read or a write that fails ends the program with its error.
fn main(rt: HostRuntime) -> io::Result<()> {
    let mut input = rt.stdin();
    let mut output = rt.stdout();
    test_io::answer_all(|| answer_case(&mut input, &mut output))
}

fn answer_case<R: Read, W: Write>(input: &mut R, output: &mut W) -> Result<(), Stop> {
    match word(input)? {
        0 => lent::answer_run(input, output, array_run::run, lent::print_whole_report),
        1 => by_hand::answer_run(input, output),
        2 => wild::answer_tick(input, output),
        3 => lent::answer_run(input, output, plain_run::run, lent::print_report),
        _ => Err(Stop::End),
    }
}
