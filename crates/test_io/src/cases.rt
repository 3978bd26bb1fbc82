// Cases: what a test program answers one after another, until one stops.
ghost use Rattle.std.specs.Prelude.{◌≡◌, IfOk, Result, Err, Some, None};
ghost use Rattle.input_bytes.specs.Reads.{ReadsOn};
ghost use Rattle.test_io.specs.TextLines.{ReadsWord};
ghost use Rattle.test_io.specs.Cases.{ending_of};
ghost use Rattle.test_io.specs.declared.cases.Stop.{Stop};
ghost use Rattle.test_io.specs.declared.cases.Stop.TheVariants.{End, Failed};

use std::io::{self, Read};

// Why a case stops: the input has ended, or a read or a write has failed.
#[derive(Debug, Drop)]
pub enum Stop {
    End,
    Failed(io::Error),
}

impl From<io::Error> for Stop {
    ghost from_gives = { λ error stop. stop ≡ Failed error };

    fn from(error: io::Error) -> Stop {
        Stop::Failed(error)
    }
}

// Reads a word. Where there is none, the case stops as at the end of the input.
pub fn word<R: Read>(input: &mut R) -> Result<u64, Stop>
    ensures word { IfOk result (λ n. ReadsWord (R.remaining input.old) (R.remaining input.new) (Some n)) }
    ensures end { result ≡ Err End → ReadsWord (R.remaining input.old) (R.remaining input.new) None }
    ensures reads_on { ReadsOn (R.remaining input.old) (R.remaining input.new) }
{
    crate::read_word(input)?.ok_or(Stop::End)
}

// Answers cases until one stops. A proved loop has to end, so its turns are counted, up to a number that no run uses up.
pub fn answer_all<F: FnMut() -> Result<(), Stop>>(mut answer: F) -> io::Result<()>
    requires { F.IsAlwaysCallable answer }
    ensures { (before : F) × (answered : Result Unit Stop) × (after : F) × F.step before answered after × (result ≡ ending_of answered) }
{
    for _ in 0..u64::MAX {
        match answer() {
            Ok(()) => {}
            Err(Stop::End) => return Ok(()),
            Err(Stop::Failed(error)) => return Err(error),
        }
    }
    Ok(())
}
