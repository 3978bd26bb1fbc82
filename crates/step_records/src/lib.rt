#![tactic(auto)]
// The records of a step (document 01, "One rotation", last paragraph, and document 02 (ii) and (vii)).
ghost use Rattle.std.specs.Prelude.{◌≡◌};
ghost use Rattle.refusal.specs.Answers.{answered};
ghost use Rattle.step_records.specs.Records.{record_of, record_at, before_records, row_outcome, records_of};

use ordering::Registers;
use refusal::Refusal;
use rotation::{Found, Parameters};
use sizes::MOST_PROCESSORS;

// Tangent, cosine and sine of a pair, and whether both of its roots are exact.
#[derive(Clone, Copy)]
pub struct Record {
    pub t: f64,
    pub c: f64,
    pub s: f64,
    pub exact: bool,
}

// An answer, and the row beside it.
// Stays a struct: a refused call gives its row back too, as `records_of` says, and a Result would have none.
#[derive(Clone, Copy)]
pub struct Recorded {
    pub answer: Result<(), Refusal>,
    pub row: [Record; MOST_PROCESSORS],
}

// Writes the records of a step's N pairs to the front of a lent row.
#[tactic(auto, using(crate::proofs::WrittenRows::row_steps))]
pub fn of_step(n: usize, matrix: &[f64], step: usize, row: &mut [Record]) -> Result<(), Refusal>
    ensures { row_outcome (answered result) row.new ≡ records_of n matrix.now step row.old }
{
    verdict(n, matrix, row.len())?;
    let processors = sizes::processors_of(n);
    let registers = ordering::pairs(n, step).registers;
    for (k, record) in row[..processors].iter_mut().enumerate() {
        *record = of_processor(n, matrix, registers, k);
    }
    Ok(())
}

// The same for a row that is handed over and given back.
// Stays a function of its own: `docs/CONTRACTS.md` names it.
pub fn in_row(n: usize, matrix: &[f64], step: usize, mut row: [Record; MOST_PROCESSORS]) -> Recorded
    ensures { row_outcome (answered result.answer) result.row ≡ records_of n matrix.now step row }
{
    let answer = of_step(n, matrix, step, &mut row);
    Recorded { answer, row }
}

// Refusals 1, 3, 5, 6 and 7 of a call that is lent a row of `room` records.
#[tactic(auto, using(crate::proofs::RecordRefusals::record_tests))]
pub fn verdict(n: usize, matrix: &[f64], room: usize) -> Result<(), Refusal>
    ensures { answered result ≡ before_records n matrix.now room }
{
    if !sizes::is_order(n) {
        return Err(Refusal::Order);
    }
    matrix::tested(n, matrix)?;
    if room < sizes::processors_of(n) {
        return Err(Refusal::TooShort);
    }
    Ok(())
}

// The record of the pair of processor k, from 0.
#[tactic(auto, unfolding(crate::specs::Records::record_at))]
pub fn of_processor(n: usize, matrix: &[f64], registers: Registers, k: usize) -> Record
    ensures { result ≡ record_at n matrix.now registers k }
{
    let left = registers.left.get(k).copied().unwrap_or(0);
    let right = registers.right.get(k).copied().unwrap_or(0);
    let found = matrix_turns::found(n, left, right, matrix);
    of_found(runs::ruled(n, k, found))
}

// The record of a pair of which this is found.
pub fn of_found(found: Found) -> Record
    ensures { result ≡ record_of found }
{
    let exact = found.exact;
    match found.parameters {
        Parameters::Still => Record {
            t: 0.0,
            c: 1.0,
            s: 0.0,
            exact,
        },
        Parameters::Turn(t, c, s) => Record { t, c, s, exact },
    }
}
