// The array by hand: its record is kept in lent words between two calls.
ghost use Rattle.std.specs.Prelude.{◌≡◌};
ghost use Rattle.capi.specs.CAnswers.{c_answer};
ghost use Rattle.capi.specs.Calls.{of_start, of_tick};

use array::Array;
use refusal::Refusal;
use tile_schedule::Progress;

#[tactic(auto, unfolding(crate::specs::Calls::of_start, array_words::specs::Words::stored_in))]
#[unsafe(no_mangle)]
pub extern "C" fn weimrukas_array_start(
    n: usize,
    sweeps: usize,
    matrix: &[f64],
    words: &mut [u64],
    row: &mut usize,
    column: &mut usize,
) -> u8
    ensures { (c_answer result row.new column.new, words.new)
        ≡ of_start n sweeps matrix.now words.old row.old column.old }
{
    if !array_words::is_array(words.len()) {
        return crate::answers::number_of(runs::verdict(n, sweeps, matrix, 0, 0), row, column);
    }
    let started = Array::start(n, sweeps, matrix);
    array_words::store(&started.array, words);
    crate::answers::number_of(started.answer, row, column)
}

#[tactic(auto, unfolding(crate::specs::Calls::of_tick, array_words::specs::Words::stored_in))]
#[unsafe(no_mangle)]
pub extern "C" fn weimrukas_array_tick(words: &mut [u64], made: &mut u8) -> u8
    ensures { (result, made.new, words.new) ≡ of_tick words.old }
{
    *made = 0;
    if !array_words::is_array(words.len()) {
        return u8::from(Refusal::Length);
    }
    let array = array_words::load(words);
    let ticked = array.tick();
    match ticked.answer {
        Ok(Progress::Made) => {
            array_words::store(&ticked.array, words);
            *made = 1;
            0
        }
        Ok(Progress::Stopped) => 0,
        Err(refused) => u8::from(refused),
    }
}
