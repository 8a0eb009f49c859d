// Lines of a listing against an assignment, against each other, and against document 01's layout.

use crate::scan::{is_value, occurs, record_at};
use records::{LINE, RECORD, VARIABLES};
use std::cmp::Ordering;

// An entry of a line: the first record of its value, and how many this has.
#[derive(Clone, Copy, PartialEq, Eq)]
pub struct Entry {
    pub first: u16,
    pub count: u16,
}

impl Entry {
    // The entry of a variable that is open; one that isn't there counts as open too.
    const OPEN: Entry = Entry { first: 0, count: 0 };

    pub fn is_open(self) -> bool {
        self.count == 0
    }
}

// The entry with this number.
pub fn entry_at(entries: &[u8], n: usize) -> Entry {
    let Some(bytes) = record_at(entries, n) else {
        return Entry::OPEN;
    };
    let [first_high, first_low, count_high, count_low] = bytes;
    Entry {
        first: u16::from_be_bytes([first_high, first_low]),
        count: u16::from_be_bytes([count_high, count_low]),
    }
}

// The value of the entry with this number, if it isn't open; empty if the table has no such records.
pub fn value_at<'a>(values: &'a [u8], entries: &[u8], n: usize) -> Option<&'a [u8]> {
    let entry = entry_at(entries, n);
    if entry.is_open() {
        return None;
    }
    let start = RECORD * usize::from(entry.first);
    let end = start + RECORD * usize::from(entry.count);
    Some(values.get(start..end).unwrap_or(&[]))
}

// Lines go up by variable 0, then 1, to the last, and open comes before assigned.
pub fn compare_lines(a: &[u8], b: &[u8], values: &[u8]) -> Ordering {
    for v in 0..VARIABLES {
        let order = value_at(values, a, v).cmp(&value_at(values, b, v));
        if order.is_ne() {
            return order;
        }
    }
    Ordering::Equal
}

// Whether an assignment has the value of each entry that a line assigns.
fn agrees(line: &[u8], assignment: &[u8], values: &[u8]) -> bool {
    (0..VARIABLES).all(|v| {
        let value = value_at(values, line, v);
        value.is_none() || value == value_at(values, assignment, v)
    })
}

// With how many lines an assignment agrees.
pub fn agreeing(lines: &[u8], assignment: &[u8], values: &[u8]) -> usize {
    lines
        .chunks_exact(LINE)
        .filter(|line| agrees(line, assignment, values))
        .count()
}

// The records of values before the entry with this number and in it, if `before` stand before it and it is laid out so.
fn entry_end(
    lines: &[u8],
    values: &[u8],
    pattern: &[u8],
    n: usize,
    before: usize,
) -> Option<usize> {
    let entry = entry_at(lines, n);
    if entry == Entry::OPEN {
        return Some(before);
    }
    let value = value_at(values, lines, n)?;
    let first = usize::from(entry.first);
    let is_so = first == before && occurs(pattern, n % VARIABLES) && is_value(value);
    is_so.then_some(first + usize::from(entry.count))
}

// How many records of values the lines have, if these stand in line order, then variable order, from record 0, and each is a closed normal
// term of a variable of the pattern.
pub fn laid_out(lines: &[u8], values: &[u8], pattern: &[u8]) -> Option<usize> {
    let mut end = 0;
    for n in 0..lines.len() / RECORD {
        end = entry_end(lines, values, pattern, n, end)?;
    }
    Some(end)
}

// Whether a variable of the pattern is open in a line.
pub fn is_open(line: &[u8], pattern: &[u8]) -> bool {
    (0..VARIABLES).any(|v| occurs(pattern, v) && entry_at(line, v).is_open())
}
