#![tactic(auto)]
// Writes the sizes that include/weimrukas.h has too: the limits, the words of an array, the longest sheet and listing, and for each number up
// to the largest order the length of its sheet in the short and in the long form and the room for its listing. tools/compare_header writes
// the expected output, from the header.
use sizes::{LARGEST_ORDER, MOST_PROCESSORS, MOST_SWEEPS};
use std::io::{self, Write};

fn main(rt: HostRuntime) -> io::Result<()> {
    let mut output = rt.stdout();
    print_limits(&mut output)?;
    print_lengths(&mut output)
}

fn print_limits<W: Write>(output: &mut W) -> io::Result<()> {
    let limits = [
        ("lines", LARGEST_ORDER),
        ("sweeps", MOST_SWEEPS),
        ("processors", MOST_PROCESSORS),
        ("words", array_words::ARRAY),
        ("tile", array_words::TILE),
        ("longest sheet", sheet::LONGEST),
        ("longest text", listing_text::LONGEST),
    ];
    for (name, size) in limits {
        test_io::print_number(output, name.as_bytes(), size as u64)?;
    }
    Ok(())
}

fn print_lengths<W: Write>(output: &mut W) -> io::Result<()> {
    for n in 1..=LARGEST_ORDER {
        test_io::print_number(output, b"sheet", sheet::length_of(1, n) as u64)?;
        test_io::print_number(output, b"long sheet", sheet::length_of(2, n) as u64)?;
        test_io::print_number(output, b"text", listing_text::room_for(n) as u64)?;
    }
    Ok(())
}
