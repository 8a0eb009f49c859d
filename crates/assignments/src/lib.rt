// Assignments as the operations are lent them: one line and a value table.
//
// An entry is open, or assigned a run of records of the value table; eight of them, by value, are an assignment. The crate reads them from
// a line and tells whether each variable of a pattern has a value. It promises that an entry is what the line's bytes say, and that a value
// is found exactly if document 01's cause 11 doesn't hold. It rests on `records`.
//
// The entries stand in a crate of their own between `records` and `sweeping`, because the sweep reads them and the search passes the same
// entries on.

#![tactic(auto)]

ghost use Rattle.std.specs.Prelude.{◌≡◌, ◌+◌, ◌*◌, ◌≤◌, ◌<◌, length, take, drop};
ghost use Rattle.terms.specs.Figures.{variables};
ghost use Rattle.terms.specs.Term.{Term};
ghost use Rattle.records.specs.Tests.{Says};
ghost use Rattle.assignments.specs.Entries.{entry_at, Read, Given, VariableAt, Mentions, Lacking, AllGiven};

use records::{Kind, RECORD, VALUE_RECORDS, VARIABLES};

// A run of records of a value table.
#[derive(Clone, Copy)]
pub struct Span {
    pub first: usize,
    pub count: usize,
}

// What an assignment has for one variable. An enum of its own, by value in an array: document 01 names this form.
#[derive(Clone, Copy)]
pub enum Entry {
    Open,
    Assigned(Span),
}

// The entry of variable i in a line.
pub fn entry_at(line: &[u8], variable: usize) -> Entry
    requires { 4 * variable + 4 ≤ length line.now }
    ensures { result ≡ entry_at line.now variable }
{
    let count = records::word_at(line, RECORD * variable + 2);
    if count == 0 {
        return Entry::Open;
    }
    let first = records::word_at(line, RECORD * variable);
    Entry::Assigned(Span {
        first: first,
        count: count,
    })
}

// The entries of a line.
pub fn entries_of(line: &[u8]) -> [Entry; VARIABLES]
    requires { length line.now ≡ 4 * variables }
    ensures { Read line.now result variables }
{
    std::array::from_fn(|variable| entry_at(line, variable))
}

// The records of a span.
pub fn value_of(values: &[u8], span: Span) -> &[u8]
    requires { 4 * (span.first + span.count) ≤ length values.now }
    ensures { result.now ≡ take (4 * span.count) (drop (4 * span.first) values.now) }
{
    let from = RECORD * span.first;
    let to = from + RECORD * span.count;
    &values[from..to]
}

// Whether variable i is assigned a value.
#[tactic(auto, using(crate::proofs::Entries::not_long, crate::proofs::Entries::not_past))]
fn is_given(values: &[u8], entries: [Entry; VARIABLES], variable: usize) -> bool
    requires { variable < variables }
    ensures { Says result ((v : Term) × Given values.now entries variable v) }
{
    let e = entries[variable];
    let Entry::Assigned(span) = e else {
        return false;
    };
    if VALUE_RECORDS < span.count {
        return false;
    }
    let records = values.len() / RECORD;
    if records < span.first {
        return false;
    }
    if records - span.first < span.count {
        return false;
    }
    records::check_value(value_of(values, span))
}

// Whether the record of s at byte `at` is the variable.
fn is_variable(s: &[u8], at: usize, variable: usize) -> bool
    requires { at + 4 ≤ length s.now }
    ensures { Says result (VariableAt s.now at variable) }
{
    if s[at] == Kind::VARIABLE.code {
        return records::number_at(s, at) == variable;
    }
    false
}

// Whether some record of s is the variable.
fn mentions(s: &[u8], variable: usize) -> bool
    ensures { Says result (Mentions s.now variable) }
{
    for k in 0..s.len() / RECORD {
        if is_variable(s, RECORD * k, variable) {
            return true;
        }
    }
    false
}

// Whether the variable occurs in s and has no value.
fn lacks(s: &[u8], values: &[u8], entries: [Entry; VARIABLES], variable: usize) -> bool
    requires { variable < variables }
    ensures { Lacking s.now values.now entries variable result }
{
    if mentions(s, variable) {
        return !is_given(values, entries, variable);
    }
    false
}

// Whether each variable of s is assigned a value; entries of other variables are not read.
pub fn all_given(s: &[u8], values: &[u8], entries: [Entry; VARIABLES]) -> bool
    ensures { AllGiven s.now values.now entries result }
{
    for i in 0..VARIABLES {
        if lacks(s, values, entries, i) {
            return false;
        }
    }
    true
}
