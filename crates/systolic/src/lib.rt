#![tactic(auto)]
// No code: the theory of the array, for any number of processors and any cells.
