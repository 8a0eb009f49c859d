// All closed normal terms of up to six records over three constants, small ones or wide ones, found by going through all runs of records;
// and the writer that puts them in a table.
//
// It promises that it is safe and ends, and that what is written lies within its tables. It rests on `records` for the kinds and figures,
// on `notation` for writing records, and on `test_scan` to tell which runs are values.

#![tactic(auto)]

pub mod writer;

use notation::within;
use records::RECORD;
use test_scan::agreement::value_at;
use test_scan::scan::{Node, is_value, node_at};
use writer::Writer;

// Each of the ten digits stands for one record, so runs of up to six records are the decimal numbers.
const DIGITS: usize = 10;

// The most records of a term, and its bytes.
const LARGEST: usize = 6;

const RUN: usize = RECORD * LARGEST;

// Terms in a table of values, each by its entry.
#[derive(Clone, Copy)]
pub struct Terms<'a> {
    pub entries: &'a [u8],
    pub values: &'a [u8],
}

impl<'a> Terms<'a> {
    pub fn count(self) -> usize {
        self.entries.len() / RECORD
    }

    // The first n terms.
    pub fn first(self, n: usize) -> Terms<'a> {
        let end = within(n.saturating_mul(RECORD), self.entries);
        Terms {
            entries: &self.entries[..end],
            values: self.values,
        }
    }

    // The records of a term, or none.
    pub fn get(self, n: usize) -> &'a [u8] {
        value_at(self.values, self.entries, n).unwrap_or(&[])
    }
}

// The two tables of terms while they are filled, one term behind the other.
#[derive(Drop)]
struct Pool<'a> {
    terms: Writer<'a>,
    entries: Writer<'a>,
}

// No closed term of so few records has another local than these.
fn node_of(digit: usize) -> Node {
    match digit {
        0 => Node::Application,
        1 => Node::Abstraction,
        2..=6 => Node::Local(digit - 2),
        _ => Node::Constant(digit - 7),
    }
}

impl<'a> Pool<'a> {
    // Adds the run of records that a number stands for, if it is a closed normal term.
    fn add(&mut self, number: usize, size: usize) {
        let mut room = [0; RUN];
        let mut run = Writer::behind(0, &mut room);
        let mut rest = number;
        for _ in 0..size {
            run.put_node(node_of(rest % DIGITS));
            rest /= DIGITS;
        }
        if is_value(run.written()) {
            self.entries.put_entry(self.terms.at / RECORD, size);
            self.terms.put_bytes(run.written());
        }
    }
}

// Fills the table of terms behind the bytes that are lent to others, and that of their entries, and gives the bytes of the entries.
pub fn fill(lent: usize, terms: &mut [u8], entries: &mut [u8]) -> usize {
    let mut pool = Pool {
        terms: Writer::behind(lent, terms),
        entries: Writer::behind(0, entries),
    };
    for size in 1..=LARGEST {
        for number in 0..DIGITS.saturating_pow(size as u32) {
            pool.add(number, size);
        }
    }
    pool.entries.at
}

// The constant that stands in wide terms where others have 0, 1 or 2: the last of 16 bits, the first that has more, and the last of all.
// The first and the last differ in the top byte alone; the first and the second are in the order of the top byte, against that of the
// others.
pub fn wide_constant(number: usize) -> usize {
    match number {
        0 => 65535,
        1 => 65536,
        _ => 16777215,
    }
}

// Makes the terms of a table wide ones. Each keeps its place, so that an entry is one of both tables.
pub fn widen(terms: &mut [u8]) {
    for i in 0..terms.len() / RECORD {
        if let Some(Node::Constant(number)) = node_at(terms, i) {
            Writer::behind(RECORD * i, terms).put_node(Node::Constant(wide_constant(number)));
        }
    }
}
