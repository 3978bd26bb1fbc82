#![tactic(auto)]
// No code: computed tests of the definitions of `systolic`, against a model outside the proofs.
