// What stands before the matrix of a run, one word to a line: the order, the sweeps, the lengths of the matrix, of the result and of the
// vectors, and the word that both results are filled with.
ghost use Rattle.std.specs.Prelude.{IfOk};
ghost use Rattle.test_io.specs.Runs.{Lendable};
ghost use Rattle.input_bytes.specs.Reads.{ReadsOn};

use sizes::LARGEST_ORDER;
use std::io::{self, Read};

// The first even order that is refused for its size. Inputs ask for a run of it, so a buffer has to hold its matrix.
const ORDER_PAST: usize = LARGEST_ORDER + 2;

// The values that a buffer of a test program holds.
pub const LIMIT: usize = ORDER_PAST * ORDER_PAST;

// The order, the sweeps, the lengths of the matrix and of both results, and the value that the results are filled with.
#[derive(Clone, Copy)]
pub struct Run {
    pub n: usize,
    pub sweeps: usize,
    pub matrix: usize,
    pub result: usize,
    pub vectors: usize,
    pub fill: f64,
}

// Reads the head of a run. Where the input ends there is none, and with a length above LIMIT neither.
pub fn read_head<R: Read>(input: &mut R) -> io::Result<Option<Run>>
    ensures lendable { IfOk result Lendable }
    ensures reads_on { ReadsOn (R.remaining input.old) (R.remaining input.new) }
{
    let mut words = [0; 6];
    for word in words.iter_mut() {
        let Some(next) = crate::read_word(input)? else {
            return Ok(None);
        };
        *word = next;
    }
    let [n, sweeps, matrix, result, vectors, fill] = words;
    Ok(checked(Run {
        n: n as usize,
        sweeps: sweeps as usize,
        matrix: matrix as usize,
        result: result as usize,
        vectors: vectors as usize,
        fill: float64::from_bits(fill),
    }))
}

// The run, if every length is within LIMIT.
fn checked(run: Run) -> Option<Run>
    ensures { Lendable result }
{
    let fits = run.matrix <= LIMIT && run.result <= LIMIT && run.vectors <= LIMIT;
    if fits { Some(run) } else { None }
}
