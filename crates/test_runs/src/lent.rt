// Runs by plain sweeps and whole runs by the array, lent alike: the head of each, as test_io::runs has it, and the matrix. The answer is the
// refusal, if it is refused, with its row and column where it has them, or the number of sweeps made, then that of the array's ticks, and
// that of the pairs with a rounded root, and in each case the result and the vectors.
use array_run::WholeReport;
use plain_run::Report;
use refusal::Refusal;
use std::io::{self, Read, Write};
use test_io::runs::LIMIT;
use test_io::{Stop, refusals, runs, values};

// Lends a run parts of its own buffers, the results filled.
pub fn answer_run<R: Read, W: Write, T, F, P>(
    input: &mut R,
    output: &mut W,
    run: F,
    print: P,
) -> Result<(), Stop>
where
    F: FnOnce(usize, usize, &[f64], &mut [f64], &mut [f64]) -> Result<T, Refusal>,
    P: FnOnce(&mut W, T) -> io::Result<()>,
    requires runs { F.IsAlwaysCallable run }
    requires prints { P.IsAlwaysCallable print }
{
    let head = runs::read_head(input)?.ok_or(Stop::End)?;
    let mut matrix = [0.0; LIMIT];
    let mut result = [head.fill; LIMIT];
    let mut vectors = [head.fill; LIMIT];
    let matrix = matrix.get_mut(..head.matrix).ok_or(Stop::End)?;
    let res = result.get_mut(..head.result).ok_or(Stop::End)?;
    let vectors = vectors.get_mut(..head.vectors).ok_or(Stop::End)?;
    values::read_values(input, matrix)?;
    match run(head.n, head.sweeps, matrix, res, vectors) {
        Ok(report) => print(output, report)?,
        Err(refused) => refusals::print_refusal(output, refused)?,
    }
    values::print_values(output, res)?;
    values::print_values(output, vectors)?;
    Ok(())
}

// Writes the numbers of sweeps made and of rounded pairs.
pub fn print_report<W: Write>(output: &mut W, report: Report) -> io::Result<()> {
    test_io::print_word(output, report.sweeps as u64)?;
    test_io::print_word(output, report.rounded as u64)
}

// Writes the numbers of sweeps and of ticks made and of rounded pairs.
pub fn print_whole_report<W: Write>(output: &mut W, report: WholeReport) -> io::Result<()> {
    test_io::print_word(output, report.sweeps as u64)?;
    test_io::print_word(output, report.ticks as u64)?;
    test_io::print_word(output, report.rounded as u64)
}
