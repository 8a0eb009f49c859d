// What is printed of an example, for numbers of a refusal on both sides of the limit at which one of two functions cuts them.
//
// For each number two lines: one with the number as it is given, and one with the number cut as that of its total is. 0 is for no refusal,
// and then the lines say what was compared. It promises that it is safe and that it ends; its text is what the gate compares. It rests on
// `test_totals`, whose functions print.

#![tactic(auto)]

use test_totals::{REFUSALS, Total, Totals};

fn main() {
    let mut totals = Totals::NONE;
    totals.tally(Total::Lines);
    totals.tally(Total::Order);
    for refusal in [0, 1, REFUSALS - 1, REFUSALS, REFUSALS + 1, 27, usize::MAX] {
        totals.say_example(b"as given", refusal);
        totals.say_expected(b"cut", refusal);
    }
}
