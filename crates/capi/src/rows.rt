// The records of a step, three values and a flag a record.
ghost use Rattle.std.specs.Prelude.{◌≡◌, ◌+◌, ◌*◌, ◌/◌, ◌≤◌, true, length, set};
ghost use Rattle.refusal.specs.Answers.{given};
ghost use Rattle.sizes.specs.Sizes.{is_order, processors_of};
ghost use Rattle.capi.specs.CAnswers.{c_answer};
ghost use Rattle.capi.specs.Calls.{records_room, records_left, flags_left, of_records};

use step_records::Record;

#[tactic(auto, unfolding(crate::specs::Calls::of_records, crate::specs::CAnswers::c_answer_of))]
#[unsafe(no_mangle)]
pub extern "C" fn weimrukas_records(
    n: usize,
    matrix: &[f64],
    step: usize,
    values: &mut [f64],
    exact: &mut [u8],
    row: &mut usize,
    column: &mut usize,
) -> u8
    ensures { (c_answer result row.new column.new, values.new, exact.new)
        ≡ of_records n matrix.now step values.old exact.old row.old column.old }
{
    match step_records::verdict(n, matrix, records_room(values.len(), exact.len())) {
        Ok(()) => {
            put_records(n, matrix, step, values, exact);
            0
        }
        Err(refused) => crate::answers::refuse(refused, row, column),
    }
}

// How many records there is room for in so many values and flags.
#[tactic(auto, unfolding(crate::specs::Calls::records_room))]
fn records_room(values: usize, flags: usize) -> usize
    ensures { result ≡ records_room values flags }
{
    (values / 3).min(flags)
}

// Writes the values of the records one after the other, and their flags.
fn put_records(n: usize, matrix: &[f64], step: usize, values: &mut [f64], exact: &mut [u8])
    requires { (is_order n ≡ true) × (processors_of n * 3 ≤ length values.old) × (processors_of n ≤ length exact.old) }
    ensures { (values.new ≡ records_left (given tt) n matrix.now step values.old)
        × (exact.new ≡ flags_left (given tt) n matrix.now step exact.old) }
{
    let registers = ordering::pairs(n, step).registers;
    for k in 0..sizes::processors_of(n) {
        let fields = step_records::of_processor(n, matrix, registers, k);
        put_record(fields, k * 3, values);
        exact[k] = fields.exact as u8;
    }
}

// Writes the values of a record from `at` on.
fn put_record(fields: Record, at: usize, values: &mut [f64])
    requires { at + 3 ≤ length values.old }
    ensures { values.new ≡ set (set (set values.old at fields.t) (at + 1) fields.c) (at + 2) fields.s }
{
    values[at] = fields.t;
    values[at + 1] = fields.c;
    values[at + 2] = fields.s;
}
