#![tactic(auto)]
// The joining of two stations' sheets (document 02 (viii)).
ghost use Rattle.std.specs.Prelude.{◌≡◌, ◌+◌, ◌≤◌, length, get_or, IfOk};
ghost use Rattle.std.specs.Float.{binary64};
ghost use Rattle.std.specs.Float.Ieee.{to_bits};
ghost use Rattle.refusal.specs.Answers.{given, answered_as};
ghost use Rattle.matrix.specs.Matrix.{at};
ghost use Rattle.sheet.specs.Codes.{width_for};
ghost use Rattle.sheet.specs.Format.{codes_in};
ghost use Rattle.sheet_reader.specs.Reader.{sheet_answer};
ghost use Rattle.sheet_writer.specs.Writer.{write_outcome, writing_answered};
ghost use Rattle.sheet_join.specs.Join.{joint_order, joint_codes, joint_matrix, has_code, shared_code, join_answer, join_of, BothAccepted};

use refusal::Refusal;

// Writes the joint sheet of two sheets into lent bytes: the lines of the first, then those of the second, +0 between the two groups, and the
// larger number of sweeps; gives how many bytes that is. A longer buffer keeps its tail.
#[tactic(auto, unfolding(crate::specs::Join::join_of))]
pub fn join(first: &[u8], second: &[u8], sheet: &mut [u8]) -> Result<usize, Refusal>
    ensures { write_outcome (writing_answered result) sheet.new ≡ join_of first.now second.now sheet.old }
{
    let pair = pair_of(first, second, sheet.len())?;
    let sweeps = first[1].max(second[1]);
    let code = |k| pair.code(k);
    let pattern = |i, j| pair.pattern(i, j);
    Ok(sheet_writer::put_sheet(pair.width, pair.n, sweeps, code, pattern, sheet))
}

// The two sheets where they can be joined; or what the first is refused by, what the second is, and then 10, 1 and 7, where so many bytes are lent.
#[tactic(auto, using(crate::proofs::Tables::join_tests))]
fn pair_of<'a>(first: &'a [u8], second: &'a [u8], lent: usize) -> Result<Pair<'a>, Refusal>
    ensures answer { answered_as (λ pair. tt) result ≡ join_answer first.now second.now lent }
    ensures pair { IfOk result (λ pair. (pair.first.now ≡ first.now) × (pair.second.now ≡ second.now)) }
{
    sheet_reader::tested(first)?;
    sheet_reader::tested(second)?;
    let pair = Pair {
        first,
        second,
        n: sheet::order_in(first) + sheet::order_in(second),
        width: sheet::width_in(first).max(sheet::width_in(second)),
    };
    if pair.shares_a_code() {
        return Err(Refusal::SharedCode);
    }
    if !sizes::is_order(pair.n) {
        return Err(Refusal::Order);
    }
    if lent < sheet::length_of(pair.width, pair.n) {
        return Err(Refusal::TooShort);
    }
    Ok(pair)
}

// Two sheets that are not refused, their joint order, and the bytes of each code in the joint sheet: two where either sheet has the long form.
#[derive(Clone, Copy)]
struct Pair<'a> {
    first: &'a [u8],
    second: &'a [u8],
    n: usize,
    width: usize,
    ghost accepted: { BothAccepted first.now second.now },
    ghost order: { n ≡ joint_order first.now second.now },
    ghost form: { width ≡ width_for (joint_codes first.now second.now) },
}

impl Pair<'_> {
    // Whether a code of the first sheet is one of the second.
    fn shares_a_code(&self) -> bool
        ensures { result ≡ shared_code (codes_in self.now.first.now) (codes_in self.now.second.now) }
    {
        let width = sheet::width_in(self.first);
        (0..sheet::order_in(self.first)).any(|k| {
            let code = sheet_reader::code_at(width, k, self.first);
            has_code(code, self.second)
        })
    }

    // Code k of the joint sheet, from 0.
    #[tactic(auto, using(crate::proofs::JointContents::one_code))]
    fn code(&self, k: usize) -> u16
        requires { k + 1 ≤ joint_order self.now.first.now self.now.second.now }
        ensures { result ≡ get_or (joint_codes self.now.first.now self.now.second.now) k 0 }
    {
        let n = sheet::order_in(self.first);
        if k < n {
            sheet_reader::code_at(sheet::width_in(self.first), k, self.first)
        } else {
            sheet_reader::code_at(sheet::width_in(self.second), k - n, self.second)
        }
    }

    // The pattern of the entry in row i and column j of the joint matrix, from 0, up to its diagonal.
    #[tactic(auto, using(crate::proofs::JointContents::one_pattern))]
    fn pattern(&self, i: usize, j: usize) -> u64
        requires { (j ≤ i) × (i + 1 ≤ joint_order self.now.first.now self.now.second.now) }
        ensures { result ≡ to_bits binary64
            (at (joint_order self.now.first.now self.now.second.now) (joint_matrix self.now.first.now self.now.second.now) (i + 1) (j + 1)) }
    {
        let n = sheet::order_in(self.first);
        if i < n {
            sheet_reader::pattern_at(i, j, self.first)
        } else if j < n {
            0
        } else {
            sheet_reader::pattern_at(i - n, j - n, self.second)
        }
    }
}

// Whether a code is one of a sheet.
fn has_code(code: u16, sheet: &[u8]) -> bool
    requires { sheet_answer sheet.now ≡ given tt }
    ensures { result ≡ has_code code (codes_in sheet.now) }
{
    let width = sheet::width_in(sheet);
    (0..sheet::order_in(sheet)).any(|k| sheet_reader::code_at(width, k, sheet) == code)
}
