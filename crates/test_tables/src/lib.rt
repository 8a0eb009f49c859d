// The tables that are lent to list and what it left in them: its layout, the bytes behind, a refusal's number; counted.
//
// It promises that it is safe and ends. It rests on `test_scan`, which reads what was written, on `refusals` for a refusal's number, on
// `test_report` for what the tables have before a call, and on `test_totals`.

#![tactic(auto)]

use notation::{is_all, within};
use records::{LINE, RECORD, VARIABLES};
use refusals::Refusal;
use test_report::MARK;
use test_scan::agreement::{compare_lines, laid_out};
use test_scan::scan::{Feature, count, is_normal, variables};
use test_totals::{Total, Totals};

// The first bytes of the value table are lent to list; the terms of the enumeration stand behind them.
pub const LENT: usize = 32768;

// Room for the lines of one case.
pub const LINES_BYTES: usize = 32768;

// Whether the bytes behind the last line and the last value are as they were.
pub fn try_layout(pattern: &[u8], lines: &[u8], behind: &[u8], values: &[u8], totals: &mut Totals) {
    let Some(records) = laid_out(lines, values, pattern) else {
        totals.tally(Total::Layout);
        return;
    };
    let end = within(records.saturating_mul(RECORD), values);
    totals.tally_if(Total::Behind, !is_all(behind, MARK));
    totals.tally_if(Total::Behind, !is_all(&values[end..], MARK));
}

// The values that are lent to list.
pub fn lent_values(values: &[u8]) -> &[u8] {
    let end = within(LENT, values);
    &values[..end]
}

// The first n lines, and the bytes behind them.
pub fn divide(lines: &[u8], n: usize) -> (&[u8], &[u8]) {
    lines.split_at(within(n.saturating_mul(LINE), lines))
}

// Counts a listing that isn't refused. It is due if the recipe, which is a closed term, is normal.
pub fn tally_listing(recipe: &[u8], n: usize, totals: &mut Totals) {
    totals.tally(Total::Refused(0));
    totals.tally_if(Total::NoLine, n == 0);
    totals.tally_if(Total::Refusal, !is_normal(recipe));
}

// Whether a refusal is not due: a recipe is refused for not being normal, and list for want of room.
fn is_undue(recipe: &[u8], number: u64) -> bool {
    match number {
        7 => is_normal(recipe),
        9 | 10 => !is_normal(recipe),
        _ => true,
    }
}

// A refusal leaves the tables as they were.
pub fn tally_refusal(recipe: &[u8], c: Refusal, lines: &[u8], values: &[u8], totals: &mut Totals) {
    let number = refusals::number_of(c);
    totals.tally(Total::Refused(number as usize));
    totals.tally_if(Total::Behind, !is_all(lines, MARK));
    totals.tally_if(Total::Behind, !is_all(lent_values(values), MARK));
    totals.tally_if(Total::Refusal, is_undue(recipe, number));
}

pub fn tally_pattern(pattern: &[u8], totals: &mut Totals) {
    let used = variables(pattern, 1);
    totals.tally(Total::Cases);
    totals.tally_if(Total::WithBeta, 0 < count(pattern, Feature::Beta));
    totals.tally_if(Total::WithEta, 0 < count(pattern, Feature::Eta));
    totals.tally_if(Total::WithApplied, 0 < count(pattern, Feature::Applied));
    totals.tally_if(Total::WithRepeated, 0 < variables(pattern, 2));
    totals.tally_if(Total::WithAll, used == VARIABLES);
    totals.tally_if(Total::WithNone, used == 0);
}

// Whether each line is before the next.
pub fn try_order(lines: &[u8], values: &[u8], totals: &mut Totals) {
    let each = lines.chunks_exact(LINE);
    for (line, next) in each.zip(lines.chunks_exact(LINE).skip(1)) {
        totals.tally_if(Total::Order, compare_lines(line, next, values).is_ge());
    }
}
