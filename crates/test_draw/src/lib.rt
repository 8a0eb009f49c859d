// Patterns, recipes and values for the tests, drawn from a seed.
//
// It promises that it is safe and ends, and that what is written lies within its table. It rests on `records` for the figures, on
// `notation` for a length, on `test_pool` for the constants and for writing records, and on `test_scan` for records and sets of locals.

#![tactic(auto)]

pub mod generate;
pub mod random;
