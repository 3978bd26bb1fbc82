// Forecasts: the order and the sweeps. The answer is the ticks, the values and the parameters, or the refusal.
use forecast::Figures;
use std::io::{self, Read, Write};
use test_io::{Stop, refusals, word};

pub fn answer_forecast<R: Read, W: Write>(input: &mut R, output: &mut W) -> Result<(), Stop> {
    let n = word(input)? as usize;
    let sweeps = word(input)? as usize;
    match forecast::of_run(n, sweeps) {
        Ok(figures) => print_figures(output, figures)?,
        Err(refused) => refusals::print_refusal(output, refused)?,
    }
    Ok(())
}

fn print_figures<W: Write>(output: &mut W, figures: Figures) -> io::Result<()> {
    test_io::print_word(output, figures.ticks as u64)?;
    test_io::print_word(output, figures.values as u64)?;
    test_io::print_word(output, figures.parameters as u64)
}
