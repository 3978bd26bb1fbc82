#![tactic(auto)]
// Makes the calls of document 01, "Entries to try", in its order, and writes what each answers and leaves. Results are lent filled with 9.
// tools/entries_to_try.py writes the expected output.
use array_run::WholeReport;
use ordering::Registers;
use plain_run::Report;
use refusal::Refusal;
use root::Root;
use sheet_reader::Sizes;
use std::io::{self, ErrorKind, Write};
use test_io::runs::LIMIT;
use test_io::{refusals, values};

const LARGEST: u64 = 0x7FEF_FFFF_FFFF_FFFF;

fn main(rt: HostRuntime) -> io::Result<()> {
    write_all(&mut rt.stdout())
}

fn write_all<W: Write>(output: &mut W) -> io::Result<()> {
    write_roots(output)?;
    write_pairs(output)?;
    write_runs(output)?;
    write_limits(output)?;
    write_sheets(output)
}

// 4, -0, 2, 2^-1074, 1 - 2^-53, 1 + 2^-52.
fn write_roots<W: Write>(output: &mut W) -> io::Result<()> {
    let patterns = [
        0x4010_0000_0000_0000,
        0x8000_0000_0000_0000,
        0x4000_0000_0000_0000,
        1,
        0x3FEF_FFFF_FFFF_FFFF,
        0x3FF0_0000_0000_0001,
    ];
    for pattern in patterns {
        write_root(output, root::sqrt(float64::from_bits(pattern)))?;
    }
    Ok(())
}

fn write_root<W: Write>(output: &mut W, root: Result<Root, Refusal>) -> io::Result<()> {
    match root {
        Ok(root) => {
            values::print_value(output, root.value)?;
            values::print_exactness(output, root.exact)
        }
        Err(refused) => refusals::print_refusal(output, refused),
    }
}

fn write_pairs<W: Write>(output: &mut W) -> io::Result<()> {
    for (n, step) in [
        (4, 0),
        (4, 1),
        (4, 2),
        (8, 1),
        (3, 0),
        (3, 1),
        (3, 2),
        (5, 0),
        (5, 1),
    ] {
        write_list(output, n, step)?;
    }
    Ok(())
}

fn write_list<W: Write>(output: &mut W, n: usize, step: usize) -> io::Result<()> {
    let listed = ordering::pairs(n, step);
    refusals::print_answer(output, listed.answer)?;
    write_registers(output, listed.registers)
}

fn write_registers<W: Write>(output: &mut W, registers: Registers) -> io::Result<()> {
    for (left, right) in registers.left.iter().zip(registers.right.iter()) {
        test_io::print_number(output, b"left", *left as u64)?;
        test_io::print_number(output, b"right", *right as u64)?;
    }
    Ok(())
}

// A diagonal matrix, the largest value throughout, no sweep, and the orders 8 and 3.
fn write_runs<W: Write>(output: &mut W) -> io::Result<()> {
    let largest = float64::from_bits(LARGEST);
    write_run(output, 2, 1, &[1.0, 0.0, 0.0, 3.0])?;
    write_run(output, 2, 1, &[largest; 4])?;
    write_run(output, 2, 0, &[1.0; 4])?;
    write_run(output, 8, 1, &[1.0; 64])?;
    write_run(output, 3, 1, &[1.0; 9])
}

// 0, 1, 33 and 34, which are no orders, and 16 and 17 sweeps.
fn write_limits<W: Write>(output: &mut W) -> io::Result<()> {
    for n in [0, 1, 33, 34] {
        write_list(output, n, 0)?;
    }
    for (n, sweeps) in [(0, 1), (1, 1), (33, 1), (34, 1), (2, 16), (2, 17)] {
        write_run(output, n, sweeps, &[1.0; 4])?;
    }
    Ok(())
}

// A run on the matrix by plain sweeps, and one by the array.
fn write_run<W: Write>(output: &mut W, n: usize, sweeps: usize, matrix: &[f64]) -> io::Result<()> {
    lend(output, matrix.len(), |output, res, vectors| {
        write_report(output, plain_run::run(n, sweeps, matrix, res, vectors))
    })?;
    lend(output, matrix.len(), |output, res, vectors| {
        write_whole_report(output, array_run::run(n, sweeps, matrix, res, vectors))
    })
}

// Lends a run results of a length, and writes what it leaves in them. A length above LIMIT is not lent, and the answer is InvalidInput.
fn lend<W: Write, F: FnOnce(&mut W, &mut [f64], &mut [f64]) -> io::Result<()>>(
    output: &mut W,
    entries: usize,
    run: F,
) -> io::Result<()>
    requires { F.IsAlwaysCallable run }
{
    let mut result = [9.0; LIMIT];
    let mut vectors = [9.0; LIMIT];
    let result = result.get_mut(..entries).ok_or(ErrorKind::InvalidInput)?;
    let vectors = vectors.get_mut(..entries).ok_or(ErrorKind::InvalidInput)?;
    run(output, result, vectors)?;
    values::print_values(output, result)?;
    values::print_values(output, vectors)
}

fn write_report<W: Write>(output: &mut W, report: Result<Report, Refusal>) -> io::Result<()> {
    match report {
        Ok(report) => {
            test_io::print_number(output, b"sweeps", report.sweeps as u64)?;
            test_io::print_number(output, b"rounded", report.rounded as u64)
        }
        Err(refused) => refusals::print_refusal(output, refused),
    }
}

fn write_whole_report<W: Write>(
    output: &mut W,
    report: Result<WholeReport, Refusal>,
) -> io::Result<()> {
    match report {
        Ok(report) => {
            test_io::print_number(output, b"sweeps", report.sweeps as u64)?;
            test_io::print_number(output, b"ticks", report.ticks as u64)?;
            test_io::print_number(output, b"rounded", report.rounded as u64)
        }
        Err(refused) => refusals::print_refusal(output, refused),
    }
}

// The sheet that document 01 prints, a byte short, whole, and a byte too long.
fn write_sheets<W: Write>(output: &mut W) -> io::Result<()> {
    let sheet = [
        2, 1, 7, 9, 63, 240, 0, 0, 0, 0, 0, 0, 63, 240, 0, 0, 0, 0, 0, 0, 63, 240, 0, 0, 0, 0, 0,
        0, 0,
    ];
    write_reading(output, &sheet[..27])?;
    write_reading(output, &sheet[..28])?;
    write_reading(output, &sheet)
}

fn write_reading<W: Write>(output: &mut W, sheet: &[u8]) -> io::Result<()> {
    let mut codes = [9; 2];
    let mut matrix = [9.0; 4];
    write_sizes(output, sheet_reader::read(sheet, &mut codes, &mut matrix))?;
    write_codes(output, codes)?;
    values::print_values(output, &matrix)
}

fn write_sizes<W: Write>(output: &mut W, sizes: Result<Sizes, Refusal>) -> io::Result<()> {
    match sizes {
        Ok(sizes) => {
            test_io::print_number(output, b"order", sizes.n as u64)?;
            test_io::print_number(output, b"sweeps", sizes.sweeps as u64)
        }
        Err(refused) => refusals::print_refusal(output, refused),
    }
}

fn write_codes<W: Write>(output: &mut W, codes: [u16; 2]) -> io::Result<()> {
    for code in codes {
        test_io::print_number(output, b"code", u64::from(code))?;
    }
    Ok(())
}
