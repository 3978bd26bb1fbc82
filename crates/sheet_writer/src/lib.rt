#![tactic(auto)]
// The writer of sheets (document 01, "A sheet"; document 02 (i)).
ghost use Rattle.std.specs.Prelude.{◌≡◌, ℕ, ◌+◌, ◌*◌, ◌≤◌, List, length, Float};
ghost use Rattle.refusal.specs.Answers.{given, answered};
ghost use Rattle.sizes.specs.Sizes.{largest_order};
ghost use Rattle.sheet.specs.Format.{sheet_length, entries_to};
ghost use Rattle.sheet_writer.specs.Steps.{with_bytes, with_codes, with_entries, put_of, TakesCodes, TakesPlaces, GivesCodes, GivesPatterns};
ghost use Rattle.sheet_writer.specs.Writer.{write_answer, write_outcome, writing_answered, written_of, write_of};

use refusal::Refusal;

// Writes a sheet into lent bytes, in the short form wherever every code fits a byte; gives how many bytes it wrote. A longer buffer keeps its tail.
#[tactic(auto, unfolding(crate::specs::Writer::write_of))]
pub fn write(
    n: usize,
    sweeps: usize,
    codes: &[u16],
    matrix: &[f64],
    sheet: &mut [u8],
) -> Result<usize, Refusal>
    ensures { write_outcome (writing_answered result) sheet.new
        ≡ write_of n sweeps codes.now matrix.now sheet.old }
{
    verdict(n, sweeps, codes, matrix, sheet.len())?;
    let width = sheet::width_for(codes);
    let code = |k| codes[k];
    let pattern = |i, j| float64::to_bits(matrix::entry(n, i + 1, j + 1, matrix));
    Ok(put_sheet(width, n, sweeps as u8, code, pattern, sheet))
}

// Refusals 1, 2, 3, 4, 5, 6 and 7, where so many bytes are lent.
#[tactic(auto, using(crate::proofs::Tables::write_tests))]
fn verdict(
    n: usize,
    sweeps: usize,
    codes: &[u16],
    matrix: &[f64],
    lent: usize,
) -> Result<(), Refusal>
    ensures { answered result ≡ write_answer n sweeps codes.now matrix.now lent }
{
    sizes::tested(n, sweeps)?;
    if codes.len() != n || matrix.len() != n * n {
        return Err(Refusal::Length);
    }
    if sheet::has_bad_code(codes) {
        return Err(Refusal::Code);
    }
    matrix::tested(n, matrix)?;
    if lent < sheet::length_of(sheet::width_for(codes), n) {
        return Err(Refusal::TooShort);
    }
    Ok(())
}

// Writes a sheet of order n, whose code k and whose pattern in row i and column j, up to the diagonal, are given from 0; answers its length.
#[tactic(auto, unfolding(crate::specs::Steps::put_of))]
pub fn put_sheet<C: Fn(usize) -> u16, P: Fn(usize, usize) -> u64>(
    width: usize,
    n: usize,
    sweeps: u8,
    code: C,
    pattern: P,
    sheet: &mut [u8],
) -> usize
    requires sizes { (1 ≤ width) × (width ≤ 2) × (n ≤ largest_order) × (sheet_length width n ≤ length sheet.old) }
    requires codes { TakesCodes (C.pre code) n }
    requires patterns { TakesPlaces (P.pre pattern) n }
    ensures long { result ≡ sheet_length width n }
    ensures written { (codes : List ℕ) (A : ℕ → ℕ → Float) → GivesCodes (C.post code) n codes → GivesPatterns (P.post pattern) n A
        → sheet.new ≡ put_of width n sweeps codes A sheet.old }
{
    sheet[0] = sheet::first_byte(width, n);
    sheet[1] = sweeps;
    put_codes(width, n, code, sheet);
    put_entries(width, n, pattern, sheet);
    sheet::length_of(width, n)
}

#[tactic(auto, using(crate::proofs::SheetBytes::code_steps))]
fn put_codes<C: Fn(usize) -> u16>(width: usize, n: usize, code: C, sheet: &mut [u8])
    requires sizes { (1 ≤ width) × (width ≤ 2) × (n ≤ largest_order) × (2 + width * n ≤ length sheet.old) }
    requires codes { TakesCodes (C.pre code) n }
    ensures { (codes : List ℕ) → GivesCodes (C.post code) n codes → sheet.new ≡ with_codes width codes n sheet.old }
{
    for k in 0..n {
        put_code(width, code(k), 2 + width * k, sheet);
    }
}

// Writes a code into the `width` bytes from `at` on, the highest first.
// Stays with a place beside the bytes: its contract, which docs/DECISIONS.md names, says what all of them hold; so does that of `put_word`.
#[tactic(auto, using(crate::proofs::SheetBytes::code_bytes))]
pub fn put_code(width: usize, code: u16, at: usize, bytes: &mut [u8])
    requires { (1 ≤ width) × (width ≤ 2) × (at + width ≤ length bytes.old) }
    ensures { bytes.new ≡ with_bytes width code at width bytes.old }
{
    if width == 1 {
        bytes[at] = (code % 256) as u8;
    } else {
        bytes[at..at + 2].copy_from_slice(&code.to_be_bytes());
    }
}

#[tactic(auto, using(crate::proofs::SheetBytes::entry_steps))]
fn put_entries<P: Fn(usize, usize) -> u64>(width: usize, n: usize, pattern: P, sheet: &mut [u8])
    requires sizes { (width ≤ 2) × (n ≤ largest_order) × (sheet_length width n ≤ length sheet.old) }
    requires patterns { TakesPlaces (P.pre pattern) n }
    ensures { (A : ℕ → ℕ → Float) → GivesPatterns (P.post pattern) n A → sheet.new ≡ with_entries width n A (entries_to n) sheet.old }
{
    // Stays a running offset: 2 + width * n + 8 * (i * (i + 1) / 2 + j), which it is in row i and column j, is no plainer.
    let mut offset = 2 + width * n;
    for i in 0..n {
        for j in 0..i + 1 {
            put_word(pattern(i, j), offset, sheet);
            offset += 8;
        }
    }
}

// Writes a word into the 8 bytes from `at` on, the highest first.
#[tactic(auto, using(crate::proofs::SheetBytes::word_put))]
pub fn put_word(word: u64, at: usize, bytes: &mut [u8])
    requires { at + 8 ≤ length bytes.old }
    ensures { bytes.new ≡ with_bytes 8 word at 8 bytes.old }
{
    bytes[at..at + 8].copy_from_slice(&word.to_be_bytes());
}
