#![tactic(auto)]
// Lines of text for test programs: u64 words as 16 hexadecimal digits in capital letters, read from
// an input and written to an output, and decimal numbers after a word. The modules have what such
// programs read and write in these lines: cases, values, whether roots were exact, refusals, and the
// heads of runs.
ghost use Rattle.std.specs.Prelude.{◌≡◌, ◌<◌, length, IfOk, IsErr, OnOk};
ghost use Rattle.std.specs.Io.KnownBytes.{Appends};
ghost use Rattle.input_bytes.specs.Reads.{ReadsOn};
ghost use Rattle.test_io.specs.TextLines.{digit_of, word_text_line, word_of, AppendsNumber, ReadsWord};

pub use cases::{Stop, answer_all, word};
use input_bytes::read_full;
use line::Line;
use std::io::{self, ErrorKind, Read, Write};
use text::Page;

mod cases;
mod line;
pub mod refusals;
pub mod runs;
pub mod values;

// Reads a line of the input. At its end there is no word, nor in a line that is not 16 digits and a newline.
pub fn read_word<R: Read>(input: &mut R) -> io::Result<Option<u64>>
    ensures word { IfOk result (ReadsWord (R.remaining input.old) (R.remaining input.new)) }
    ensures reads_on { ReadsOn (R.remaining input.old) (R.remaining input.new) }
{
    let mut text = [0u8; 17];
    let n = read_full(input, &mut text)?;
    Ok(if n < 17 { None } else { parse(&text) })
}

// Writes n as a line of 16 digits.
pub fn print_word<W: Write>(output: &mut W, n: u64) -> io::Result<()>
    ensures { OnOk result (Appends (W.contents output.old) (W.contents output.new) (word_text_line n)) }
{
    let text = spell(n);
    output.write_all(&text)
}

// Writes word, a space, n in decimal and a newline. A word of more than 32 bytes is not written, and
// the answer is InvalidInput.
pub fn print_number<W: Write>(output: &mut W, word: &[u8], n: u64) -> io::Result<()>
    ensures ok { OnOk result (AppendsNumber (W.contents output.old) (W.contents output.new) word.now n) }
    ensures long { 32 < length word.now → IsErr result }
{
    if word.len() > 32 {
        return Err(io::Error::from(ErrorKind::InvalidInput));
    }
    let mut line = Line::new();
    line.write_all(word)?;
    writeln!(line, " {n}")?;
    output.write_all(line.text())
}

// The word in a text line, if it has one.
fn parse(text: &[u8; 17]) -> Option<u64>
    ensures { result ≡ word_of text.now }
{
    let mut n = 0;
    for b in &text[..16] {
        n = n * 16 + digit(*b)?;
    }
    if text[16] == b'\n' { Some(n) } else { None }
}

// The text line of n: 16 digits and a newline.
fn spell(n: u64) -> [u8; 17]
    ensures { result ≡ word_text_line n }
{
    let mut bytes = [b'\n'; 17];
    let mut page = Page {
        bytes: &mut bytes,
        end: 0,
    };
    page.put_hex(n);
    bytes
}

// The digit that b is the code of.
#[tactic(auto, unfolding(crate::specs::TextLines::digit_of))]
fn digit(b: u8) -> Option<u64>
    ensures { result ≡ digit_of b }
{
    match b {
        b'0'..=b'9' => Some((b - b'0') as u64),
        b'A'..=b'F' => Some((b - b'A' + 10) as u64),
        _ => None,
    }
}
