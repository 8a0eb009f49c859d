// The lines of a listing brought into document 01's order.
//
// The tables hold lines in the order in which they were found. They are compared entry by entry, sorted by merging over the work area, and
// their values are laid out anew behind one another. The crate promises that the tables are those of the same lines in order, with nothing
// else changed. It rests on `listing` for how a line and its values stand, and on `copying` for bytes.

#![tactic(auto)]

ghost use Rattle.std.specs.Prelude.{◌≡◌, ◌+◌, ◌<◌, length, take, drop};
ghost use Rattle.terms.specs.Figures.{variables};
ghost use Rattle.arranging.specs.Arranged.{Arranges, Arranged};
ghost use Rattle.arranging.specs.Order.{open_against, LinesComparable, EntriesCompared, TwoLines, Ordered, Merging};
ghost use Rattle.arranging.specs.Order.{NextChosen};
ghost use Rattle.arranging.specs.Order.{MergesLine, MergedLine, Merges, Merged, Halves, Sorts, InOrder};
ghost use Rattle.arranging.specs.Laying.{LayLine, LaidLine, LayLines, LaidLines, LayOut, LaidOut};

use assignments::Entry;
use records::{LINE, RECORD, VARIABLES};
use std::cmp::Ordering;

// How an open entry stands to another: open comes before assigned.
fn compare_open(other: Entry) -> Ordering
    ensures { result ≡ open_against other }
{
    match other {
        Entry::Open => Ordering::Equal,
        Entry::Assigned(_) => Ordering::Less,
    }
}

// Compares the entries that two lines have for a variable: open comes before assigned, and values go by their bytes.
fn compare_entries(a: &[u8], b: &[u8], variable: usize, values: &[u8]) -> Ordering
    requires { LinesComparable a.now b.now variable values.now × (variable < variables) }
    ensures { EntriesCompared a.now b.now variable values.now result }
{
    let x = assignments::entry_at(a, variable);
    let y = assignments::entry_at(b, variable);
    let Entry::Assigned(v) = x else {
        return compare_open(y);
    };
    let Entry::Assigned(w) = y else {
        return Ordering::Greater;
    };
    assignments::value_of(values, v).cmp(assignments::value_of(values, w))
}

// Whether the line that a begins with comes before the one that b begins with: the first entry that differs decides.
fn before(a: &[u8], b: &[u8], values: &[u8]) -> bool
    requires { TwoLines a.now b.now values.now }
    ensures { Ordered a.now b.now values.now result }
{
    for variable in 0..VARIABLES {
        match compare_entries(a, b, variable, values) {
            Ordering::Less => return true,
            Ordering::Greater => return false,
            Ordering::Equal => {}
        }
    }
    false
}

// Whether the line that comes next is one of a: of the two that stand next it is the earlier.
fn left_is_next(a: &[u8], i: usize, b: &[u8], j: usize, values: &[u8]) -> bool
    requires { Merging a.now i b.now j values.now × (i + j < length a.now + length b.now) }
    ensures { NextChosen a.now i b.now j values.now result }
{
    if i == a.len() {
        return false;
    }
    if j == b.len() {
        return true;
    }
    before(&a[i..], &b[j..], values)
}

// Where the lines that are left of two tables begin.
#[derive(Clone, Copy)]
struct MergePlaces {
    left: usize,
    right: usize,
}

// Writes the line that comes next, of those of a from byte i on and of b from byte j on, behind the i + j bytes that are written.
fn merge_line(a: &[u8], i: usize, b: &[u8], j: usize, values: &[u8], out: &mut [u8]) -> MergePlaces
    requires { MergesLine a.now i b.now j values.now out.old }
    ensures { MergedLine a.now i b.now j values.now out.old out.new
        result.left result.right }
{
    if left_is_next(a, i, b, j, values) {
        let end = i + LINE;
        copying::copy_into(&a[i..end], out, i + j);
        return MergePlaces {
            left: end,
            right: j,
        };
    }
    let end = j + LINE;
    copying::copy_into(&b[j..end], out, i + j);
    MergePlaces {
        left: i,
        right: end,
    }
}

// Merges the lines of a and of b, each in order, into out.
fn merge(a: &[u8], b: &[u8], values: &[u8], out: &mut [u8])
    requires { Merges a.now b.now values.now out.old }
    ensures { Merged a.now b.now values.now out.old 0 out.new }
{
    let n = a.len() + b.len();
    let mut i = 0;
    let mut j = 0;
    // No `for`: a count of the lines would serve nothing in the loop, since which of the two places moves on is what `merge_line` answers.
    while i + j < n {
        let next = merge_line(a, i, b, j, values, out);
        i = next.left;
        j = next.right;
    }
}

// Merges the lines before byte `half` with those from there on, in the work area, and copies them back.
fn merge_halves(lines: &mut [u8], half: usize, values: &[u8], work: &mut [u8])
    requires { Halves lines.old values.now work.old half }
    ensures { Merged (take half lines.old) (drop half lines.old) values.now lines.old 0
        lines.new }
{
    let n = lines.len();
    merge(&lines[0..half], &lines[half..n], values, work);
    copying::copy_into(&work[0..n], lines, 0);
}

// Sorts lines: each half by itself, then both together.
fn sort(lines: &mut [u8], values: &[u8], work: &mut [u8])
    requires { Sorts lines.old values.now work.old }
    ensures { InOrder lines.old values.now lines.new }
{
    let n = lines.len();
    if n <= LINE {
        return;
    }
    let half = n / LINE / 2 * LINE;
    sort(&mut lines[0..half], values, work);
    sort(&mut lines[half..n], values, work);
    merge_halves(lines, half, values, work);
}

// Writes the line at byte `at` anew, its values from record `first` of the values on; they stand in s. Answers the record behind them.
fn lay_line(source: &[u8], lines: &mut [u8], at: usize, values: &mut [u8], first: usize) -> usize
    requires { LayLine source.now lines.old at values.old first }
    ensures { LaidLine source.now lines.old at values.old first lines.new
        values.new result }
{
    let end = at + LINE;
    let a = assignments::entries_of(&lines[at..end]);
    listing::write_line(source, a, lines, at, values, first)
}

// Writes the first `count` lines anew, their values in line order from record 0 on; they stand in s.
fn lay_lines(source: &[u8], lines: &mut [u8], count: usize, values: &mut [u8])
    requires { LayLines source.now lines.old count values.old }
    ensures { LaidLines source.now lines.old count values.old lines.new
        values.new }
{
    let mut first = 0;
    for i in 0..count {
        first = lay_line(source, lines, LINE * i, values, first);
    }
}

// Lays the values of the first `count` lines out in line order. They are read from a copy in the work area, since a value's new place can
// be where another still stands.
fn lay_out(lines: &mut [u8], count: usize, values: &mut [u8], records: usize, work: &mut [u8])
    requires { LayOut lines.old count values.old records work.old }
    ensures { LaidOut lines.old count values.old records lines.new values.new }
{
    let n = RECORD * records;
    copying::copy_into(&values[0..n], work, 0);
    lay_lines(&work[0..n], lines, count, values);
}

// Brings a listing into document 01's order: the lines are sorted, and then their values laid out in line order. Both use the work area.
pub fn arrange(lines: &mut [u8], count: usize, values: &mut [u8], records: usize, work: &mut [u8])
    requires { Arranges lines.old values.old count records work.old }
    ensures { Arranged lines.old values.old count records lines.new values.new }
{
    let m = LINE * count;
    let n = RECORD * records;
    sort(&mut lines[0..m], &values[0..n], work);
    lay_out(lines, count, values, records, work);
}
