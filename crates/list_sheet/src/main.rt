#![tactic(auto)]
// Reads a sheet on standard input, runs the array, and prints it (document 01, "The printed sheet"). Where a read or a write fails, a line on
// standard error says so, and after a failed read nothing is printed. The exit status is 0 even then.
ghost use Rattle.std.specs.Prelude.{◌≡◌};
ghost use Rattle.input_bytes.specs.Reads.{IsPrefixLen};
ghost use Rattle.listing_text.specs.Printed.{printing};
ghost use Rattle.list_sheet.specs.Program.{prints_of};

use std::env::{Env, FillError};
use std::io::{self, Eprint, Print, Read};

// One byte more than the longest sheet has shows that the input is longer.
const INPUT: usize = sheet::LONGEST + 1;

// The room for the listing of a sheet of the largest order.
const TEXT: usize = listing_text::LONGEST;

const HELP: &str = "list_sheet < SHEET

Reads a sheet on standard input: the order n and the sweeps, a byte each, then n codes, a byte
each, and then the lower triangle of a symmetric matrix row by row, each entry a float64, the
highest byte first. A sheet with a code above 255 has the long form: its first byte is n + 128,
and each of its codes has two bytes, the highest first.
Prints n, the sweeps and the ticks of the array, and then a line for each code: the code, its
diagonal entry and its eigenvector, as the hexadecimal digits of their bits. A sheet or a run
that is refused prints the word refused and the number of the refusal.
A read or a write that fails is told on standard error; the exit status is 0 even then.
";

fn main(rt: HostRuntime) -> io::Result<()> {
    let mut argument = [0u8; 8];
    match rt.arg(1, &mut argument) {
        Ok(bytes) => explain(&rt, is_help(&argument[..bytes])),
        Err(FillError::TooLong) => explain(&rt, false),
        Err(FillError::NotPresent) => list_input(&rt, &mut rt.stdin()),
    }
}

// Says what the program reads and prints: on standard output if that is asked for, on standard error for any other argument.
fn explain<P: Print + Eprint>(rt: &P, asked_for: bool) -> io::Result<()> {
    if asked_for {
        return write(rt, HELP.as_bytes());
    }
    rt.eprint(HELP)
}

fn is_help(argument: &[u8]) -> bool {
    matches!(argument, b"-h" | b"--help")
}

// Reads a sheet and lists it. If the read fails, a line on standard error says so.
fn list_input<P: Print + Eprint, R: Read>(rt: &P, input: &mut R) -> io::Result<()> {
    let mut sheet = [0u8; INPUT];
    match input_bytes::read_full(input, &mut sheet) {
        Ok(bytes) => list(rt, &sheet[..bytes]),
        Err(error) => eprintln!(rt; "list_sheet: standard input: {error}"),
    }
}

// Lists a sheet on standard output.
fn list<P: Print + Eprint>(rt: &P, sheet: &[u8]) -> io::Result<()> {
    let mut text = [0u8; TEXT];
    let bytes = print(sheet, &mut text);
    write(rt, &text[..bytes])
}

// Prints a sheet, or the text line of its refusal, into lent bytes, and answers how many they are.
fn print(sheet: &[u8], text: &mut [u8]) -> usize
    ensures text_after { printing result text.new ≡ prints_of sheet.now text.old }
    ensures prefix_len { IsPrefixLen result text.new }
{
    match listing::list(sheet, text) {
        Ok(count) => count,
        Err(refused) => listing_text::print_refusal(refused, text),
    }
}

// Writes to standard output. If that fails, a line on standard error says so.
fn write<P: Print + Eprint>(rt: &P, text: &[u8]) -> io::Result<()> {
    match rt.write_all(text) {
        Ok(()) => Ok(()),
        Err(error) => eprintln!(rt; "list_sheet: standard output: {error}"),
    }
}
