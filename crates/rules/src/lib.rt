// The rules of a book: their two sides read, and judged in book order.
//
// A book is a table of places, each with the two sides of a rule: two counts of records, and room for 32 records a side. The crate promises
// that a side which it gives is the counted records and no others, and, for any bytes, that its verdict on all rules is the first of the
// rows 1 to 3 of their sides, left before right and in book order, whose cause holds; else that every side is one that an operation takes.
// It rests on `refusals` for the verdict on one side. `specs/Pairs` has the order in which rules are tried on the closed parts of a recipe.
//
// A place whose counts are both 0 is empty: `is_empty` and `next_rule` tell which are, and `judge_length` whether a book has 64 places. No
// operation asks for these yet.

#![tactic(auto)]

ghost use Rattle.std.specs.Prelude.{◌≡◌, ◌+◌, ◌*◌, ◌/◌, ◌≤◌, length};
ghost use Rattle.terms.specs.Figures.{place_bytes};
ghost use Rattle.terms.specs.Layout.{word_at};
ghost use Rattle.refusals.specs.Judged.{Judged};
ghost use Rattle.rules.specs.Rules.{left_table, right_table, is_empty, places, side_rows, rule_rows, rules_rows};
ghost use Rattle.rules.specs.Rules.{book_bytes, book_rows};
ghost use Rattle.rules.specs.Steps.{side_table, Side, Rule, Rules, NextRule, SideWithin, SideRead};

use records::{MOST_PLACES, PATTERN_RECORDS, PLACE, RECORD};
use refusals::Refusal;

// The bytes of a book of 64 places.
pub const BOOK_BYTES: usize = PLACE * MOST_PLACES;

// The side whose count stands at byte `count` and whose records from byte `from` on.
fn side_at(book: &[u8], count: usize, from: usize) -> &[u8]
    requires { SideRead book.now count from }
    ensures { result.now ≡ side_table book.now count from }
{
    let n = records::word_at(book, count);
    let to = from + RECORD * n;
    &book[from..to]
}

// The left side of the rule at place i.
pub fn left_of(book: &[u8], i: usize) -> &[u8]
    requires { Rule book.now i }
    ensures { result.now ≡ left_table book.now i }
{
    let at = PLACE * i;
    side_at(book, at, at + RECORD)
}

// The right side of the rule at place i.
pub fn right_of(book: &[u8], i: usize) -> &[u8]
    requires { Rule book.now i }
    ensures { result.now ≡ right_table book.now i }
{
    let at = PLACE * i;
    side_at(book, at + 2, at + RECORD + RECORD * PATTERN_RECORDS)
}

// A side, by its count and its records: 1, 2, 3.
fn judge_side(book: &[u8], count: usize, from: usize) -> Result<(), Refusal>
    requires { SideWithin book.now count from }
    ensures { Judged (side_rows (word_at book.now count) (side_table book.now count from))
        (Side (word_at book.now count) (side_table book.now count from)) result }
{
    if PATTERN_RECORDS < records::word_at(book, count) {
        return Err(Refusal::PatternLength);
    }
    refusals::judge_pattern(side_at(book, count, from))
}

// The rule at place i: left, then right.
fn judge_rule(book: &[u8], i: usize) -> Result<(), Refusal>
    requires { place_bytes * i + place_bytes ≤ length book.now }
    ensures { Judged (rule_rows book.now i) (Rule book.now i) result }
{
    let at = PLACE * i;
    judge_side(book, at, at + RECORD)?;
    judge_side(book, at + 2, at + RECORD + RECORD * PATTERN_RECORDS)
}

// Whether place i is empty.
pub fn is_empty(book: &[u8], i: usize) -> bool
    requires { place_bytes * i + place_bytes ≤ length book.now }
    ensures { result ≡ is_empty book.now i }
{
    let at = PLACE * i;
    if records::word_at(book, at) == 0 {
        return records::word_at(book, at + 2) == 0;
    }
    false
}

// The first place from `from` on that isn't empty; the number of places, and no Option, if there is none: `NextRule` says so.
pub fn next_rule(book: &[u8], from: usize) -> usize
    requires { from ≤ length book.now / place_bytes }
    ensures { NextRule book.now from result }
{
    let end = book.len() / PLACE;
    (from..end).find(|i| !is_empty(book, *i)).unwrap_or(end)
}

// All rules, in book order.
pub fn judge_rules(book: &[u8]) -> Result<(), Refusal>
    ensures { Judged (rules_rows book.now (places book.now)) (Rules book.now) result }
{
    for i in 0..book.len() / PLACE {
        judge_rule(book, i)?;
    }
    Ok(())
}

// A book of 64 places: 8.
pub fn judge_length(book: &[u8]) -> Result<(), Refusal>
    ensures { Judged (book_rows book.now) (length book.now ≡ book_bytes) result }
{
    if book.len() != BOOK_BYTES {
        return Err(Refusal::Tables);
    }
    Ok(())
}
