#![tactic(auto)]
// The calls of documents 01 and 02 as C functions; include/weimrukas.h tells what each answers and leaves.
mod answers;
mod both_runs;
mod forecasts;
mod hand;
mod listings;
mod pairs;
mod rotations;
mod rows;
mod sheets;
