// The parameters of pairs: the bits of a = a_pp, d = a_qq and b = a_pq. The answer is still, or the bits of the tangent, the cosine and
// the sine, and then whether both roots were exact.
use rotation::Parameters;
use std::io::{self, Read, Write};
use test_io::{Stop, values, word};

pub fn answer_pair<R: Read, W: Write>(input: &mut R, output: &mut W) -> Result<(), Stop> {
    let a = float64::from_bits(word(input)?);
    let d = float64::from_bits(word(input)?);
    let b = float64::from_bits(word(input)?);
    let found = rotation::of_pair(a, d, b);
    print_parameters(output, found.parameters)?;
    values::print_exactness(output, found.exact)?;
    Ok(())
}

fn print_parameters<W: Write>(output: &mut W, parameters: Parameters) -> io::Result<()> {
    match parameters {
        Parameters::Still => output.write_all(b"still\n"),
        Parameters::Turn(t, c, s) => values::print_values(output, &[t, c, s]),
    }
}
