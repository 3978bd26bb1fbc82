// Square roots: the bits of a value. The answer is the bits of its square root and whether it is exact, or the refusal.
use root::Root;
use std::io::{self, Read, Write};
use test_io::{Stop, refusals, values, word};

pub fn answer_root<R: Read, W: Write>(input: &mut R, output: &mut W) -> Result<(), Stop> {
    match root::sqrt(float64::from_bits(word(input)?)) {
        Ok(root) => print_root(output, root)?,
        Err(refused) => refusals::print_refusal(output, refused)?,
    }
    Ok(())
}

fn print_root<W: Write>(output: &mut W, root: Root) -> io::Result<()> {
    values::print_value(output, root.value)?;
    values::print_exactness(output, root.exact)
}
