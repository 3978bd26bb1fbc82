// The list of pairs.
ghost use Rattle.std.specs.Prelude.{◌≡◌};
ghost use Rattle.capi.specs.Calls.{pairs_too_short, listed_in, pairs_of};

use refusal::Refusal;

#[tactic(auto, unfolding(crate::specs::Calls::pairs_of, crate::specs::CAnswers::number_answered))]
#[unsafe(no_mangle)]
pub extern "C" fn weimrukas_pairs(
    n: usize,
    step: usize,
    left: &mut [usize],
    right: &mut [usize],
) -> u8
    ensures { (result, left.new, right.new) ≡ pairs_of n step left.old right.old }
{
    if pairs_too_short(n, left.len(), right.len()) {
        return u8::from(Refusal::TooShort);
    }
    let listed = ordering::pairs(n, step);
    put_registers(&listed.registers.left, left);
    put_registers(&listed.registers.right, right);
    match listed.answer {
        Ok(()) => 0,
        Err(refused) => u8::from(refused),
    }
}

// Whether lists of these lengths cannot hold the registers of an order.
#[tactic(auto, unfolding(crate::specs::Calls::pairs_too_short))]
fn pairs_too_short(n: usize, lefts: usize, rights: usize) -> bool
    ensures { result ≡ pairs_too_short n lefts rights }
{
    let processors = sizes::processors_of(n);
    sizes::is_order(n) && (lefts < processors || rights < processors)
}

// Writes registers to the front of a list, and zeros above them.
fn put_registers(registers: &[usize], to: &mut [usize])
    ensures { to.new ≡ listed_in registers.now to.old }
{
    for (k, place) in to.iter_mut().enumerate() {
        *place = registers.get(k).copied().unwrap_or(0);
    }
}
