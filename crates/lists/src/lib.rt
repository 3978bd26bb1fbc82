#![tactic(auto)]
// No code: lists given by a formula, and their laws.
