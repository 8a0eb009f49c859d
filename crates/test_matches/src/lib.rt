// Assignments and lines of one pattern and one recipe tried by check and by the swept form.
//
// Every assignment of the pattern's variables to given terms must be a match for both or for neither, and agree with exactly one line or
// with none; every line must match however its open variables are filled, and be before the next. It promises that it is safe and ends. A
// disagreement is counted. It rests on `rewriting`, which is tried, on `test_scan`, which reads the lines, on `test_pool` for terms in a
// table, on `test_tables` for the order of lines, and on `test_totals`.

#![tactic(auto)]

use notation::within;
use records::{LINE, RECORD, SWEPT_RECORDS, VARIABLES};
use test_pool::Terms;
use test_scan::agreement::{agreeing, entry_at, is_open};
use test_scan::scan::{occurs, record_at, variables};
use test_tables::try_order;
use test_totals::{Total, Totals};

// The most bytes of a swept form.
const SWEPT: usize = RECORD * SWEPT_RECORDS;

// Fillings of each line that has an open entry.
const FILLINGS: usize = 4;

// What is tried: a pattern, a recipe, and terms for the pattern's variables.
#[derive(Clone, Copy)]
pub struct Trial<'a> {
    pub pattern: &'a [u8],
    pub recipe: &'a [u8],
    pub terms: Terms<'a>,
}

// Copies an entry of one table to another.
pub fn copy_entry(from: &[u8], i: usize, to: &mut [u8], j: usize) {
    let (entries, _) = to.as_chunks_mut::<RECORD>();
    if let (Some(entry), Some(place)) = (record_at(from, i), entries.get_mut(j)) {
        *place = entry;
    }
}

// How many assignments there are of so many variables to n terms.
pub fn power(n: usize, places: usize) -> usize {
    (0..places).fold(1, |product: usize, _| product.saturating_mul(n))
}

// The assignment of the pattern's variables that a number's digits give, in the base that is the number of terms.
pub fn assign(pattern: &[u8], entries: &[u8], number: usize) -> [u8; LINE] {
    let mut line = [0; LINE];
    let n = entries.len() / RECORD;
    let mut rest = number;
    for v in 0..VARIABLES {
        if n != 0 && occurs(pattern, v) {
            copy_entry(entries, rest % n, &mut line, v);
            rest /= n;
        }
    }
    line
}

fn checked(trial: Trial<'_>, line: &[u8], work: &mut [u8]) -> Option<bool> {
    rewriting::check(trial.pattern, trial.recipe, line, trial.terms.values, work).ok()
}

// Whether the swept form is the recipe.
fn swept(trial: Trial<'_>, line: &[u8], work: &mut [u8]) -> Option<bool> {
    let mut out = [0u8; SWEPT];
    let n = rewriting::sweep(trial.pattern, line, trial.terms.values, &mut out, work).ok()?;
    Some(is_recipe(trial.recipe, n, &out))
}

fn is_recipe(recipe: &[u8], n: usize, out: &[u8]) -> bool {
    let end = within(n.saturating_mul(RECORD), out);
    recipe == &out[..end]
}

// Counts how an assignment that is a match, or isn't, stands to the lines.
fn tally_agreeing(verdict: Option<bool>, agreeing: usize, totals: &mut Totals) {
    match verdict {
        None => totals.tally(Total::TooLong),
        Some(false) => totals.tally_if(Total::NoMatchInLine, agreeing != 0),
        Some(true) => {
            totals.tally(Total::Matches);
            totals.tally_if(Total::InNoLine, agreeing == 0);
            totals.tally_if(Total::InTwoLines, 1 < agreeing);
        }
    }
}

impl<'a> Trial<'a> {
    fn try_assignment(self, assignment: &[u8], lines: &[u8], work: &mut [u8], totals: &mut Totals) {
        totals.tally(Total::Assignments);
        let verdict = checked(self, assignment, work);
        let form = swept(self, assignment, work);
        totals.tally_if(Total::CheckAndSweep, verdict != form);
        tally_agreeing(
            verdict,
            agreeing(lines, assignment, self.terms.values),
            totals,
        );
    }

    // Every assignment of the pattern's variables to the terms.
    pub fn try_assignments(self, lines: &[u8], work: &mut [u8], totals: &mut Totals) {
        for number in 0..power(self.terms.count(), variables(self.pattern, 1)) {
            let assignment = assign(self.pattern, self.terms.entries, number);
            self.try_assignment(&assignment, lines, work, totals);
        }
    }

    // A line with its open variables filled with terms, others at each turn.
    fn filling(self, line: &[u8], turn: usize) -> [u8; LINE] {
        let mut filling = [0; LINE];
        let n = self.terms.count();
        for v in 0..VARIABLES {
            if !entry_at(line, v).is_open() {
                copy_entry(line, v, &mut filling, v);
            } else if n != 0 && occurs(self.pattern, v) {
                copy_entry(
                    self.terms.entries,
                    (turn % 64 * 7 + v * 3) % n,
                    &mut filling,
                    v,
                );
            }
        }
        filling
    }

    fn try_filling(self, filling: &[u8], work: &mut [u8], totals: &mut Totals) {
        let verdict = checked(self, filling, work);
        totals.tally(Total::Fillings);
        totals.tally_if(Total::TooLong, verdict.is_none());
        totals.tally_if(Total::Filling, verdict == Some(false));
    }

    fn try_line(self, line: &[u8], work: &mut [u8], totals: &mut Totals) {
        let open = is_open(line, self.pattern);
        totals.tally(Total::Lines);
        totals.tally_if(Total::OpenLines, open);
        let turns = if open { FILLINGS } else { 1 };
        for turn in 0..turns {
            self.try_filling(&self.filling(line, turn), work, totals);
        }
    }

    // Every line: its fillings, and its place.
    pub fn try_lines(self, lines: &[u8], work: &mut [u8], totals: &mut Totals) {
        for line in lines.chunks_exact(LINE) {
            self.try_line(line, work, totals);
        }
        try_order(lines, self.terms.values, totals);
    }
}
