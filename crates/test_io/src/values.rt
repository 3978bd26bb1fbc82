// Values as words, by their bits: a NaN is written as 7FF8000000000000, and every pattern of a NaN is read as one. And whether roots were
// exact, as a word.
ghost use Rattle.std.specs.Prelude.{OnOk};
ghost use Rattle.std.specs.Float.{binary64};
ghost use Rattle.std.specs.Float.Ieee.{to_bits};
ghost use Rattle.std.specs.Io.KnownBytes.{Appends};
ghost use Rattle.test_io.specs.TextLines.{word_text_line};

use crate::Stop;
use std::io::{self, Read, Write};

// Reads the values of a.
pub fn read_values<R: Read>(input: &mut R, a: &mut [f64]) -> Result<(), Stop> {
    for x in a {
        *x = float64::from_bits(crate::word(input)?);
    }
    Ok(())
}

// Writes the values of a, one to a line.
pub fn print_values<W: Write>(output: &mut W, a: &[f64]) -> io::Result<()> {
    for x in a {
        print_value(output, *x)?;
    }
    Ok(())
}

pub fn print_value<W: Write>(output: &mut W, x: f64) -> io::Result<()>
    ensures { OnOk result (Appends (W.contents output.old) (W.contents output.new) (word_text_line (to_bits binary64 x))) }
{
    crate::print_word(output, float64::to_bits(x))
}

pub fn print_exactness<W: Write>(output: &mut W, exact: bool) -> io::Result<()> {
    if exact {
        return output.write_all(b"exact\n");
    }
    output.write_all(b"rounded\n")
}
