#![tactic(auto)]
// No code: this crate states what is claimed of the others, and proves it by their laws.
