// One pattern and one recipe tried: its listing set against all assignments over enumerated values, and what came of it counted.
//
// It promises that it is safe and ends. A disagreement is counted, and the program prints the counts. It rests on `matcher`, which is
// tried, on `test_matches`, which tries each line and each assignment, and on `test_tables`, which tries the layout.

#![tactic(auto)]

use notation::{is_all, within};
use records::TABLE_BYTES;
use refusals::Refusal;
use test_matches::Trial;
use test_pool::Terms;
use test_report::{MARK, filled};
use test_tables::{
    LENT, LINES_BYTES, divide, lent_values, tally_listing, tally_pattern, tally_refusal, try_layout,
};
use test_totals::{Total, Totals};

// Puts the terms of the enumeration behind the bytes that are lent.
fn put_terms(values: &[u8], table: &mut [u8]) {
    for (to, from) in table.iter_mut().zip(values).skip(LENT) {
        *to = *from;
    }
}

fn try_listing(trial: Trial<'_>, n: usize, lines: &[u8], work: &mut [u8], totals: &mut Totals) {
    let (found, behind) = divide(lines, n);
    let values = lent_values(trial.terms.values);
    tally_listing(trial.recipe, n, totals);
    try_layout(trial.pattern, found, behind, values, totals);
    trial.try_lines(found, work, totals);
    trial.try_assignments(found, work, totals);
    totals.tally_if(Total::Area, !is_all(work, 0));
}

// What came of a listing. Gives the count of its lines, if it isn't refused.
fn try_answer(
    answer: Result<usize, Refusal>,
    trial: Trial<'_>,
    lines: &[u8],
    work: &mut [u8],
    totals: &mut Totals,
) -> Option<usize> {
    match answer {
        Ok(n) => {
            try_listing(trial, n, lines, work, totals);
            Some(n)
        }
        Err(c) => {
            tally_refusal(trial.recipe, c, lines, trial.terms.values, totals);
            None
        }
    }
}

fn try_tables(
    trial: Trial<'_>,
    lines: &mut [u8],
    values: &mut [u8],
    work: &mut [u8],
    totals: &mut Totals,
) -> Option<usize> {
    let lent = within(LENT, values);
    let answer = matcher::list(
        trial.pattern,
        trial.recipe,
        lines,
        &mut values[..lent],
        work,
    );
    totals.tally_if(Total::Area, !is_all(work, 0));
    let listed = Trial {
        terms: Terms {
            entries: trial.terms.entries,
            values,
        },
        ..trial
    };
    try_answer(answer, listed, lines, work, totals)
}

// Lists into marked tables, and tries everything.
pub fn try_case(trial: Trial<'_>, totals: &mut Totals) -> Option<usize> {
    let mut lines = filled::<LINES_BYTES>(MARK);
    let mut table = filled::<TABLE_BYTES>(MARK);
    let mut work = filled::<TABLE_BYTES>(MARK);
    put_terms(trial.terms.values, &mut table);
    tally_pattern(trial.pattern, totals);
    try_tables(trial, &mut lines, &mut table, &mut work, totals)
}
