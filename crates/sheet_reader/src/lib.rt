#![tactic(auto)]
// The reader of sheets (document 01, "A sheet"; document 02 (i)), and what a sheet is refused by.
ghost use Rattle.std.specs.Prelude.{◌≡◌, ◌||◌, ◌+◌, ◌*◌, ◌≤◌, length, IfOk};
ghost use Rattle.refusal.specs.Answers.{given, answered, answered_as};
ghost use Rattle.matrix.specs.Matrix.{flat};
ghost use Rattle.sheet.specs.Format.{order_in, code_in, codes_in, word_from, pattern_in, entry_in};
ghost use Rattle.sheet.specs.Codes.{bad_codes};
ghost use Rattle.sheet_reader.specs.Reader.{OfForm, stored_row, long_in_vain, sheet_answer, read_answer, read_outcome, reading_answered, content_of, read_of};

use refusal::Refusal;
use sizes::LARGEST_ORDER;

// The order and the sweeps of a sheet that is read.
#[derive(Clone, Copy)]
pub struct Sizes {
    pub n: usize,
    pub sweeps: usize,
}

// Reads a sheet into lent codes and a lent matrix.
#[tactic(auto, unfolding(crate::specs::Reader::read_of))]
pub fn read(sheet: &[u8], codes: &mut [u16], matrix: &mut [f64]) -> Result<Sizes, Refusal>
    ensures { read_outcome (reading_answered result) codes.new matrix.new
        ≡ read_of sheet.now codes.old matrix.old }
{
    let form = form_of(sheet, codes.len(), matrix.len())?;
    form.read_codes(codes);
    form.read_entries(matrix);
    Ok(Sizes {
        n: form.n,
        sweeps: sheet[1] as usize,
    })
}

// What a sheet is refused by, by its bytes alone.
#[tactic(auto, using(crate::proofs::Tables::lent_right))]
pub fn tested(sheet: &[u8]) -> Result<(), Refusal>
    ensures { answered result ≡ sheet_answer sheet.now }
{
    let n = sheet::order_in(sheet);
    form_of(sheet, n, n * n)?;
    Ok(())
}

// The form of a sheet that is not refused, or refusal 3, 1, 2, 3, 4 or 5, where the lent codes and the lent matrix have these lengths.
#[tactic(auto, using(crate::proofs::Tables::read_tests))]
fn form_of(sheet: &[u8], codes: usize, matrix: usize) -> Result<Form, Refusal>
    ensures answer { answered_as (λ form. tt) result ≡ read_answer sheet.now codes matrix }
    ensures form { IfOk result (λ form. form.sheet.now ≡ sheet.now) }
{
    if sheet.len() < 2 {
        return Err(Refusal::Length);
    }
    let n = sheet::order_in(sheet);
    sizes::tested(n, sheet[1] as usize)?;
    let width = sheet::width_in(sheet);
    if codes != n || matrix != n * n || sheet.len() != sheet::length_of(width, n) {
        return Err(Refusal::Length);
    }
    let form = Form { sheet, n, width };
    if form.has_refused_code() {
        return Err(Refusal::Code);
    }
    form.first_not_finite()?;
    Ok(form)
}

// Code k of a sheet, from 0.
// Stays with the width and the sheet as parameters: its contract, which docs/DECISIONS.md names, asks less of the sheet than a `Form` knows.
#[tactic(auto, using(crate::proofs::SheetContents::one_code))]
pub fn code_at(width: usize, k: usize, sheet: &[u8]) -> u16
    requires { (1 ≤ width) × (width ≤ 2) × (2 + width * k + width ≤ length sheet.now) }
    ensures { result ≡ code_in width sheet.now k }
{
    if width == 1 {
        sheet[2 + k] as u16
    } else {
        u16::from_be_bytes([sheet[2 + 2 * k], sheet[3 + 2 * k]])
    }
}

// The pattern of the stored entry in row i and column j, from 0, of a sheet that is not refused.
pub fn pattern_at(i: usize, j: usize, sheet: &[u8]) -> u64
    requires { (sheet_answer sheet.now ≡ given tt) × (j ≤ i) × (i + 1 ≤ order_in sheet.now) }
    ensures { result ≡ pattern_in sheet.now (i + 1) (j + 1) }
{
    let form = Form {
        sheet,
        n: sheet::order_in(sheet),
        width: sheet::width_in(sheet),
    };
    form.pattern(i, j)
}

// A sheet of the length of its form: its bytes, its order, and the bytes of each of its codes.
#[derive(Clone, Copy)]
struct Form<'a> {
    sheet: &'a [u8],
    n: usize,
    width: usize,
    ghost of_form: { OfForm width n sheet.now },
}

impl Form<'_> {
    // Whether a code is zero or used before, or the sheet has the long form in vain.
    fn has_refused_code(&self) -> bool
        ensures { result ≡ (bad_codes (codes_in self.now.sheet.now) || long_in_vain self.now.sheet.now) }
    {
        let mut codes = [0; LARGEST_ORDER];
        self.refuses_codes(&mut codes[..self.n])
    }

    // The same, by way of codes that are lent.
    #[tactic(auto, using(crate::proofs::SheetContents::code_tests))]
    fn refuses_codes(&self, codes: &mut [u16]) -> bool
        requires { length codes.old ≡ self.now.n }
        ensures { result ≡ (bad_codes (codes_in self.now.sheet.now) || long_in_vain self.now.sheet.now) }
    {
        self.read_codes(codes);
        sheet::has_bad_code(codes) || self.width == 2 && !sheet::has_long_code(codes)
    }

    #[tactic(auto, using(crate::proofs::SheetContents::code_reads))]
    fn read_codes(&self, codes: &mut [u16])
        requires { length codes.old ≡ self.now.n }
        ensures { codes.new ≡ codes_in self.now.sheet.now }
    {
        for (k, code) in codes.iter_mut().enumerate() {
            *code = code_at(self.width, k, self.sheet);
        }
    }

    // The first stored entry that is not finite, by its pattern.
    #[tactic(auto, using(crate::proofs::SheetContents::entry_tests))]
    fn first_not_finite(&self) -> Result<(), Refusal>
        ensures { answered result ≡ stored_row self.now.sheet.now }
    {
        // Stays left by a label: document 01 names the form "nested loops over rows and columns, left by a label at the first bad entry".
        let mut found = Ok(());
        'rows: for i in 0..self.n {
            for j in 0..i + 1 {
                if !float64::is_finite_pattern(self.pattern(i, j)) {
                    found = Err(Refusal::NotFinite(i + 1, j + 1));
                    break 'rows;
                }
            }
        }
        found
    }

    // Each stored entry goes to its place and to the mirror place.
    #[tactic(auto, using(crate::proofs::MirroredEntries::whole_rows))]
    fn read_entries(&self, matrix: &mut [f64])
        requires { length matrix.old ≡ self.now.n * self.now.n }
        ensures { matrix.new ≡ flat self.now.n (entry_in self.now.sheet.now) }
    {
        let n = self.n;
        for i in 0..n {
            for j in 0..i + 1 {
                let x = float64::from_bits(self.pattern(i, j));
                matrix[i * n + j] = x;
                matrix[j * n + i] = x;
            }
        }
    }

    // The pattern of the stored entry in row i and column j, from 0: the word of its 8 bytes, the highest first.
    #[tactic(auto, using(crate::proofs::SheetContents::one_pattern))]
    fn pattern(&self, i: usize, j: usize) -> u64
        requires { (j ≤ i) × (i + 1 ≤ self.now.n) }
        ensures { result ≡ pattern_in self.now.sheet.now (i + 1) (j + 1) }
    {
        let at = 2 + self.width * self.n + 8 * (i * (i + 1) / 2 + j);
        word_at(self.sheet, at)
    }
}

// The word of the 8 bytes from `at` on, the highest first.
fn word_at(bytes: &[u8], at: usize) -> u64
    requires { at + 8 ≤ length bytes.now }
    ensures { result ≡ word_from bytes.now at 8 }
{
    u64::from_be_bytes(<[u8; 8]>::try_from(&bytes[at..at + 8]).unwrap())
}
