// Tables of records and lines read plainly, for the tests: parts, locals, values, and lines that agree.
//
// It reads what the matcher wrote by functions of its own, so that a fault there is not repeated here. It promises that it is safe and
// ends; what it says of terms is not promised, but compared. It rests on `records` for the kinds and figures alone.

#![tactic(auto)]

pub mod agreement;
pub mod scan;
