#![tactic(auto)]
// The registers of the processors and the list of pairs (document 01, "Pairs and their movement").
ghost use Rattle.std.specs.Prelude.{◌≡◌, ℕ, ◌-◌, ◌≤◌, ◌<◌};
ghost use Rattle.systolic.specs.Slots.{left, right, ordered_line, prior, line_at};
ghost use Rattle.sizes.specs.Sizes.{most_processors};
ghost use Rattle.ordering.specs.Registers.{registers_of, coming_into, in_slot};
ghost use Rattle.ordering.specs.Pairs.{no_registers, or_none, registers_at, after_step, Lists};

use refusal::Refusal;
use sizes::MOST_PROCESSORS;

// The left and the right register of each processor, zeros above the last one.
// Stays two arrays: document 01 names the form "a struct with two fixed arrays".
#[derive(Clone, Copy)]
pub struct Registers {
    pub left: [usize; MOST_PROCESSORS],
    pub right: [usize; MOST_PROCESSORS],
}

// An answer, and the registers beside it.
// Stays a struct: a refused list has zeros beside its refusal, as `Lists` says, and a Result would have none.
#[derive(Clone, Copy)]
pub struct PairList {
    pub answer: Result<(), Refusal>,
    pub registers: Registers,
}

// The pairs of an order n in a step, from 0: both registers of each processor.
#[tactic(auto, using(crate::proofs::OrderRegisters::order_steps))]
pub fn pairs(n: usize, step: usize) -> PairList
    ensures { Lists n step result }
{
    if sizes::is_order(n) {
        let registers = Registers::after(
            sizes::processors_of(n),
            sizes::first_line(n),
            step % sizes::sweep_steps(n),
        );
        PairList {
            answer: Ok(()),
            registers,
        }
    } else {
        PairList {
            answer: Err(Refusal::Order),
            registers: Registers::none(),
        }
    }
}

impl Registers {
    // Zeros only.
    #[tactic(auto, using(crate::proofs::Movement::register_steps))]
    pub fn none() -> Registers
        ensures { result ≡ no_registers }
    {
        Registers {
            left: [0; MOST_PROCESSORS],
            right: [0; MOST_PROCESSORS],
        }
    }

    // The registers of an order n at first, zeros only where it is refused.
    #[tactic(auto, using(crate::proofs::OrderRegisters::order_steps))]
    pub fn of_order(n: usize) -> Registers
        ensures { result ≡ or_none n (registers_at n 0) }
    {
        if sizes::is_order(n) {
            Registers::start(sizes::processors_of(n), sizes::first_line(n))
        } else {
            Registers::none()
        }
    }

    // The registers after a step of an order n, zeros only where it is refused.
    #[tactic(auto, using(crate::proofs::OrderRegisters::order_steps))]
    pub fn after_step(self, n: usize) -> Registers
        ensures { result ≡ or_none n (after_step n self) }
    {
        if sizes::is_order(n) {
            self.moved(sizes::processors_of(n))
        } else {
            Registers::none()
        }
    }

    // The registers at the start: the lines from `first` on, in order.
    #[tactic(auto, using(crate::proofs::Movement::register_steps))]
    fn start(processors: usize, first: usize) -> Registers
        requires { (processors ≤ most_processors) × (first ≤ 1) }
        ensures { result ≡ registers_of processors (ordered_line first) }
    {
        let mut left = [0; MOST_PROCESSORS];
        let mut right = [0; MOST_PROCESSORS];
        for k in 0..processors {
            left[k] = 2 * k + first;
            right[k] = 2 * k + 1 + first;
        }
        Registers { left, right }
    }

    // The registers after a step.
    #[tactic(auto, using(crate::proofs::Movement::register_steps))]
    fn moved(self, processors: usize) -> Registers
        requires { (1 ≤ processors) × (processors ≤ most_processors) }
        ensures { result ≡ registers_of processors (λ u. in_slot self (prior (processors - 1) u)) }
    {
        let mut left = [0; MOST_PROCESSORS];
        let mut right = [0; MOST_PROCESSORS];
        for k in 0..processors {
            left[k] = self.into_left(k);
            right[k] = self.into_right(processors - 1, k);
        }
        Registers { left, right }
    }

    // The registers at a step.
    #[tactic(auto, using(crate::proofs::Movement::register_steps))]
    fn after(processors: usize, first: usize, step: usize) -> Registers
        requires { (1 ≤ processors) × (processors ≤ most_processors) × (first ≤ 1) }
        ensures { result ≡ registers_of processors (line_at (ordered_line first) (processors - 1) step) }
    {
        let mut registers = Registers::start(processors, first);
        for _s in 0..step {
            registers = registers.moved(processors);
        }
        registers
    }

    // The line that comes into left k.
    #[tactic(auto, using(crate::proofs::Movement::moves))]
    fn into_left(&self, k: usize) -> usize
        requires { k < most_processors }
        ensures { (m : ℕ) → result ≡ coming_into self.now.left self.now.right m left k }
    {
        match k {
            0 => self.left[0],
            1 => self.right[0],
            _ => self.left[k - 1],
        }
    }

    // The line that comes into right k, where `last` is the last processor.
    #[tactic(auto, using(crate::proofs::Movement::moves))]
    fn into_right(&self, last: usize, k: usize) -> usize
        requires { (k ≤ last) × (last < most_processors) }
        ensures { result ≡ coming_into self.now.left self.now.right last right k }
    {
        if k < last {
            self.right[k + 1]
        } else if last == 0 {
            self.right[0]
        } else {
            self.left[last]
        }
    }
}
