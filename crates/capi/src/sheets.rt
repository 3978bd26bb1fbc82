// The reader and the writer of sheets, and the joining of two.
ghost use Rattle.std.specs.Prelude.{◌≡◌};
ghost use Rattle.sheet_reader.specs.Reader.{read_of};
ghost use Rattle.sheet_writer.specs.Writer.{writing_answered, write_of};
ghost use Rattle.sheet_join.specs.Join.{join_of};
ghost use Rattle.capi.specs.CAnswers.{c_answer};
ghost use Rattle.capi.specs.Calls.{of_reading, of_written, of_writing};

use refusal::Refusal;

#[tactic(auto, unfolding(crate::specs::Calls::of_reading, crate::specs::CAnswers::c_answer_of))]
#[unsafe(no_mangle)]
pub extern "C" fn weimrukas_read_sheet(
    sheet: &[u8],
    codes: &mut [u16],
    matrix: &mut [f64],
    n: &mut usize,
    sweeps: &mut usize,
    row: &mut usize,
    column: &mut usize,
) -> u8
    ensures { (c_answer result row.new column.new, (n.new, sweeps.new), codes.new, matrix.new)
        ≡ of_reading (read_of sheet.now codes.old matrix.old) n.old sweeps.old row.old
        column.old }
{
    match sheet_reader::read(sheet, codes, matrix) {
        Ok(sizes) => {
            *n = sizes.n;
            *sweeps = sizes.sweeps;
            0
        }
        Err(refused) => crate::answers::refuse(refused, row, column),
    }
}

#[tactic(auto, unfolding(crate::specs::Calls::of_writing))]
#[unsafe(no_mangle)]
pub extern "C" fn weimrukas_write_sheet(
    n: usize,
    sweeps: usize,
    codes: &[u16],
    matrix: &[f64],
    sheet: &mut [u8],
    written: &mut usize,
    row: &mut usize,
    column: &mut usize,
) -> u8
    ensures { (c_answer result row.new column.new, written.new, sheet.new)
        ≡ of_writing (write_of n sweeps codes.now matrix.now sheet.old) written.old row.old
        column.old }
{
    let answer = sheet_writer::write(n, sweeps, codes, matrix, sheet);
    tell_written(answer, written, row, column)
}

#[tactic(auto, unfolding(crate::specs::Calls::of_writing))]
#[unsafe(no_mangle)]
pub extern "C" fn weimrukas_join_sheets(
    first: &[u8],
    second: &[u8],
    sheet: &mut [u8],
    written: &mut usize,
    row: &mut usize,
    column: &mut usize,
) -> u8
    ensures { (c_answer result row.new column.new, written.new, sheet.new)
        ≡ of_writing (join_of first.now second.now sheet.old) written.old row.old
        column.old }
{
    let answer = sheet_join::join(first, second, sheet);
    tell_written(answer, written, row, column)
}

// How many bytes are written, or the number of the refusal.
#[tactic(auto, unfolding(crate::specs::CAnswers::c_answer_of))]
fn tell_written(
    answer: Result<usize, Refusal>,
    written: &mut usize,
    row: &mut usize,
    column: &mut usize,
) -> u8
    ensures { (c_answer result row.new column.new, written.new)
        ≡ of_written (writing_answered answer) written.old row.old column.old }
{
    match answer {
        Ok(count) => {
            *written = count;
            0
        }
        Err(refused) => crate::answers::refuse(refused, row, column),
    }
}
