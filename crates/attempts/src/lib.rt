// One pair of a closed part of a recipe and a rule: listed, and rewritten if the rule can be used.
//
// The matches of the rule's left side and the part are listed in full tables. If there are any, and line 0 leaves no variable of the right
// side open, the part is rewritten by that line, a variable that is open in the left side alone being filled with the constant 0. The crate
// promises what comes of the pair: that the search goes on behind it, the first normal form of the filled right side, or the refusal that
// ends the search. It rests on `enumeration` for the listing, on `sides` for the forms and on `fitting` for heads that differ.
//
// A listing clears tables of its own, which takes some fifty times as long as reading two heads, and most rules have another head than most
// parts. So a part whose head isn't that of a left side with a rigid head is passed over before anything is listed. The caller lends the
// full tables, so that they are made once for all pairs. The constant stands in the last record of the value table, behind all values of
// line 0, which have at most 160 records each.

#![tactic(auto)]

ghost use Rattle.std.specs.Prelude.{◌≡◌, ◌+◌, ◌*◌, ◌≤◌, ◌<◌, length};
ghost use Rattle.terms.specs.Figures.{variables, words};
ghost use Rattle.terms.specs.Term.{Term};
ghost use Rattle.terms.specs.Table.{encode};
ghost use Rattle.records.specs.Checks.{Pattern};
ghost use Rattle.attempts.specs.Pairs.{Tried};
ghost use Rattle.attempts.specs.Steps.{PairAnswered, EntryWritten, FilledOpen, SidesFilled, SidesRewritten};
ghost use Rattle.attempts.specs.Steps.{ListingTables, UsableTold, LineUsed, PairTables};

use records::{Kind, LINE, RECORD, VARIABLES};
use refusals::Refusal;
use sweeping::SWEPT_BYTES;

// Fills variable i's entry of the line that the table begins with, if it is open: it gets the value of one record at record n.
fn fill_entry(line: &mut [u8], i: usize, n: usize)
    requires { (4 * i + 4 ≤ length line.old) × (i < variables) × (n < words) }
    ensures { EntryWritten line.old n i line.new }
{
    let at = RECORD * i;
    if 0 < records::word_at(line, at + 2) {
        return;
    }
    listing::put_word(line, at, n);
    listing::put_word(line, at + 2, 1);
}

// Fills all open entries of the line.
fn fill_open(line: &mut [u8], n: usize)
    requires { (4 * variables ≤ length line.old) × (n < words) }
    ensures { FilledOpen line.old n line.new variables }
{
    for i in 0..VARIABLES {
        fill_entry(line, i, n);
    }
}

// Sweeps the filled left side once, for its limit, and the filled right side until it is normal.
fn rewrite_sides(
    left: &[u8],
    right: &[u8],
    line: &[u8],
    values: &[u8],
    form: &mut [u8; SWEPT_BYTES],
) -> Result<Option<usize>, Refusal>
    requires { SidesFilled left.now right.now line.now values.now }
    ensures { SidesRewritten left.now right.now line.now values.now result
        form.new }
{
    let mut swept = [0u8; SWEPT_BYTES];
    if sides::sweep_side(left, line, values, &mut swept).is_none() {
        return Err(Refusal::SweptForm);
    }
    let n = sides::normalize_side(right, line, values, form)?;
    Ok(Some(n))
}

// Whether a listing of n lines isn't empty and its line 0 leaves no variable of the right side open.
fn is_usable(right: &[u8], n: usize, lines: &[u8], values: &[u8]) -> bool
    requires { Pattern right.now × (4 * variables ≤ length lines.now) }
    ensures { UsableTold right.now n lines.now values.now result }
{
    if n == 0 {
        return false;
    }
    refusals::judge_assignment(right, &lines[0..LINE], values).is_ok()
}

// Rewrites by line 0 of a listing, its open entries being filled with the constant 0.
fn use_line(
    left: &[u8],
    right: &[u8],
    n: usize,
    lines: &mut [u8],
    values: &mut [u8],
    form: &mut [u8; SWEPT_BYTES],
) -> Result<Option<usize>, Refusal>
    requires { ((t : Term) × ListingTables left.now right.now t n lines.old values.old) × (0 < n) }
    ensures { LineUsed left.now right.now n lines.old values.old result form.new }
{
    let last = values.len() / RECORD - 1;
    records::put_record(values, RECORD * last, Kind::CONSTANT, 0);
    fill_open(lines, last);
    rewrite_sides(left, right, &lines[0..LINE], values, form)
}

// Rewrites by line 0 of a listing of n lines, if it can be used.
fn use_listing(
    left: &[u8],
    right: &[u8],
    n: usize,
    lines: &mut [u8],
    values: &mut [u8],
    form: &mut [u8; SWEPT_BYTES],
) -> Result<Option<usize>, Refusal>
    requires { (t : Term) × ListingTables left.now right.now t n lines.old values.old }
    ensures { (t : Term) → ListingTables left.now right.now t n lines.old values.old
        → PairAnswered (Tried left.now right.now t) result form.new }
{
    if is_usable(right, n, lines, values) {
        return use_line(left, right, n, lines, values, form);
    }
    Ok(None)
}

// Tries a rule on a part: it becomes a form of so many records, or is passed over; or the search is refused.
pub fn try_rule(
    left: &[u8],
    right: &[u8],
    part: &[u8],
    lines: &mut [u8],
    values: &mut [u8],
    form: &mut [u8; SWEPT_BYTES],
    work: &mut [u8],
) -> Result<Option<usize>, Refusal>
    requires { PairTables left.now right.now part.now lines.old values.old work.old }
    ensures { (t : Term) → part.now ≡ encode t
        → PairAnswered (Tried left.now right.now t) result form.new }
{
    if fitting::heads_exclude(left, part) {
        return Ok(None);
    }
    let n = enumeration::enumerate(left, part, lines, values, work)?;
    use_listing(left, right, n, lines, values, form)
}
