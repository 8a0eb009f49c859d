// The full listing of a pattern and a recipe, written to the lent tables, or refused for want of room.
//
// A search writes what it finds to tables of its own, so that a listing without room is refused before anything is written; from there the
// lines and their values are copied, and brought into document 01's order. The first search has room for a short listing and stops where
// there are more lines; for a longer one a second search has as much room as can be lent. It promises, of tables that passed the checks,
// that a full listing is written or that none has room. It rests on `reducts` and `search` for the lines, on `arranging` for their order,
// and on `matching` for why that is the full listing.
//
// A refusal 9 or 10 leaves all tables as they were, so that lines have to be counted before one is written to those that are lent. Counting
// first and then searching again into the lent tables took twice the time on most cases of the benchmark; room for all at once would cost
// every call the clearing of 128 KB. So the first search has room for 128 lines and 8,192 records, and only a longer listing takes the
// second, with 128 KB on the stack. A station with a smaller stack would change that.

#![tactic(auto)]

ghost use Rattle.std.specs.Prelude.{◌≡◌, ◌*◌, ◌≤◌, length};
ghost use Rattle.terms.specs.Figures.{variables, table_bytes};
ghost use Rattle.records.specs.Tests.{Says};
ghost use Rattle.enumeration.specs.Written.{lent_records, Enumerated};
ghost use Rattle.enumeration.specs.Steps.{short_lines, short_records, Short, ListTables, Copyable, CopiedIf};

use listing::Tally;
use records::{LINE, RECORD, TABLE_BYTES};
use reducts::PATTERN_BYTES;
use refusals::Refusal;

// The bytes of the lines of a short listing, at most 128, and of their values, at most 8,192 records.
const SHORT_LINES: usize = 128 * LINE;

const SHORT_VALUES: usize = 8192 * RECORD;

// A search's own tables come from functions that promise their lengths, so that no proof computes with so many bytes.
fn short_line_table() -> [u8; SHORT_LINES]
    ensures { length result ≡ 4 * variables * short_lines }
{
    [0u8; SHORT_LINES]
}

fn short_value_table() -> [u8; SHORT_VALUES]
    ensures { length result ≡ 4 * short_records }
{
    [0u8; SHORT_VALUES]
}

fn long_table() -> [u8; TABLE_BYTES]
    ensures { length result ≡ table_bytes }
{
    [0u8; TABLE_BYTES]
}

// Copies the lines that a search found, and their values, from the tables that it wrote to those that are lent, and brings them into order;
// or refuses, if the values have no room.
fn copy_lines(
    found: Tally,
    rows: &[u8],
    terms: &[u8],
    lines: &mut [u8],
    values: &mut [u8],
    work: &mut [u8],
) -> Result<usize, Refusal>
    requires { found.records ≤ lent_records values.old → Copyable found rows.now terms.now lines.old values.old work.old }
    ensures { CopiedIf found rows.now terms.now lines.old values.old result
        lines.new values.new }
{
    let count = found.lines;
    let records = found.records;
    if values.len() / RECORD < records {
        return Err(Refusal::ValueRoom);
    }
    let m = LINE * count;
    let n = RECORD * records;
    copying::copy_into(&rows[0..m], lines, 0);
    copying::copy_into(&terms[0..n], values, 0);
    arranging::arrange(lines, count, values, records, work);
    Ok(count)
}

// Writes the full listing, or refuses if it has no room. Where the search stops at no limit, its tables hold all that has room in those
// lent.
#[tactic(auto, using(crate::proofs::Searches::no_lines))]
fn enumerate_long(
    pattern: &[u8],
    recipe: &[u8],
    lines: &mut [u8],
    values: &mut [u8],
    work: &mut [u8],
) -> Result<usize, Refusal>
    requires { ListTables pattern.now recipe.now lines.old values.old work.old }
    ensures { Enumerated pattern.now recipe.now lines.old values.old result
        lines.new values.new }
{
    let limit = lines.len() / LINE;
    let mut long_lines = long_table();
    let mut long_values = long_table();
    let found = search::collect(
        pattern,
        recipe,
        limit,
        &mut long_lines,
        &mut long_values,
        work,
    );
    if limit < found.lines {
        return Err(Refusal::LineRoom);
    }
    copy_lines(found, &long_lines, &long_values, lines, values, work)
}

// How many lines a short listing has at most, where so many are lent.
fn few_lines(lent: usize) -> usize
    ensures { (result ≤ lent) × (result ≤ short_lines) }
{
    lent.min(SHORT_LINES / LINE)
}

// Whether a search that stops behind `few` lines found all lines, and has written all records of their values.
fn is_short(found: usize, records: usize, few: usize) -> bool
    ensures { Says result (Short found records few) }
{
    if few < found {
        return false;
    }
    if SHORT_VALUES / RECORD < records {
        return false;
    }
    true
}

// Writes the full listing, or refuses if it has no room: a short one is found at once.
fn enumerate_short(
    pattern: &[u8],
    recipe: &[u8],
    lines: &mut [u8],
    values: &mut [u8],
    work: &mut [u8],
) -> Result<usize, Refusal>
    requires { ListTables pattern.now recipe.now lines.old values.old work.old }
    ensures { Enumerated pattern.now recipe.now lines.old values.old result
        lines.new values.new }
{
    let few = few_lines(lines.len() / LINE);
    let mut short_lines = short_line_table();
    let mut short_values = short_value_table();
    let found = search::collect(
        pattern,
        recipe,
        few,
        &mut short_lines,
        &mut short_values,
        work,
    );
    if is_short(found.lines, found.records, few) {
        return copy_lines(found, &short_lines, &short_values, lines, values, work);
    }
    enumerate_long(pattern, recipe, lines, values, work)
}

// Writes the full listing, or refuses if it has no room. What is searched is the pattern's reduct, in which redexes that needn't wait for
// the sweep are contracted: it has the same full listing, and the search doesn't have to guess where their arguments stood. Where the
// reduct is too long for a pattern, the pattern itself is searched.
pub fn enumerate(
    pattern: &[u8],
    recipe: &[u8],
    lines: &mut [u8],
    values: &mut [u8],
    work: &mut [u8],
) -> Result<usize, Refusal>
    requires { ListTables pattern.now recipe.now lines.old values.old work.old }
    ensures { Enumerated pattern.now recipe.now lines.old values.old result
        lines.new values.new }
{
    let mut reduct = [0u8; PATTERN_BYTES];
    let Some(n) = reducts::reduce(pattern, &mut reduct) else {
        return enumerate_short(pattern, recipe, lines, values, work);
    };
    enumerate_short(&reduct[0..n * RECORD], recipe, lines, values, work)
}
