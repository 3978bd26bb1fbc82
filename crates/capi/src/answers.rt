// The numbers and places of answers, and what crosses to C.
ghost use Rattle.std.specs.Prelude.{◌≡◌};
ghost use Rattle.refusal.specs.Refusal.{number_of, values_of};
ghost use Rattle.refusal.specs.Answers.{answered};
ghost use Rattle.capi.specs.CAnswers.{c_answer, refused_as, c_answer_of};

use refusal::Refusal;

// The number of an answer, with the place of a refusal that has one.
#[tactic(auto, unfolding(crate::specs::CAnswers::c_answer_of))]
pub fn number_of(answer: Result<(), Refusal>, row: &mut usize, column: &mut usize) -> u8
    ensures { c_answer result row.new column.new ≡ c_answer_of (answered answer) row.old column.old }
{
    match answer {
        Ok(()) => 0,
        Err(refused) => refuse(refused, row, column),
    }
}

// The number of a refusal, with its place if it has one.
#[tactic(auto, unfolding(crate::specs::CAnswers::refused_as, crate::specs::CAnswers::place_or))]
pub fn refuse(refused: Refusal, row: &mut usize, column: &mut usize) -> u8
    ensures { c_answer result row.new column.new
        ≡ refused_as (number_of refused) (values_of refused) row.old column.old }
{
    if let Some((i, j)) = refused.place() {
        *row = i;
        *column = j;
    }
    u8::from(refused)
}

// The same value. A NaN that an operation gave may have any pattern in memory; what callers in C see is that of one function.
pub fn canonical(x: f64) -> f64
    ensures { result ≡ x }
{
    if x.is_nan() {
        float64::not_a_number()
    } else {
        x
    }
}
