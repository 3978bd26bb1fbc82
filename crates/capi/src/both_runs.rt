// The plain run and the array's whole run.
ghost use Rattle.std.specs.Prelude.{◌≡◌};
ghost use Rattle.plain_run.specs.Quiet.{answered_run_of};
ghost use Rattle.array_run.specs.Whole.{whole_of};
ghost use Rattle.capi.specs.CAnswers.{c_answer};
ghost use Rattle.capi.specs.Calls.{of_run, of_whole};

#[tactic(auto, unfolding(crate::specs::Calls::of_run, crate::specs::CAnswers::c_answer_of))]
#[unsafe(no_mangle)]
pub extern "C" fn weimrukas_plain_run(
    n: usize,
    sweeps: usize,
    matrix: &[f64],
    res: &mut [f64],
    vectors: &mut [f64],
    sweeps_made: &mut usize,
    rounded: &mut usize,
    row: &mut usize,
    column: &mut usize,
) -> u8
    ensures { (c_answer result row.new column.new, sweeps_made.new, rounded.new, res.new, vectors.new)
        ≡ of_run (answered_run_of n sweeps matrix.now res.old vectors.old) sweeps_made.old
        rounded.old row.old column.old }
{
    match plain_run::run(n, sweeps, matrix, res, vectors) {
        Ok(report) => {
            *sweeps_made = report.sweeps;
            *rounded = report.rounded;
            0
        }
        Err(refused) => crate::answers::refuse(refused, row, column),
    }
}

#[tactic(auto, unfolding(crate::specs::Calls::of_whole, crate::specs::CAnswers::c_answer_of))]
#[unsafe(no_mangle)]
pub extern "C" fn weimrukas_array_run(
    n: usize,
    sweeps: usize,
    matrix: &[f64],
    res: &mut [f64],
    vectors: &mut [f64],
    sweeps_made: &mut usize,
    ticks: &mut usize,
    rounded: &mut usize,
    row: &mut usize,
    column: &mut usize,
) -> u8
    ensures { (
      c_answer result row.new column.new,
      sweeps_made.new,
      ticks.new,
      rounded.new,
      res.new,
      vectors.new,
    )
        ≡ of_whole (whole_of n sweeps matrix.now res.old vectors.old) sweeps_made.old ticks.old
        rounded.old row.old column.old }
{
    match array_run::run(n, sweeps, matrix, res, vectors) {
        Ok(report) => {
            *sweeps_made = report.sweeps;
            *ticks = report.ticks;
            *rounded = report.rounded;
            0
        }
        Err(refused) => crate::answers::refuse(refused, row, column),
    }
}
