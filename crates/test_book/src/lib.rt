// A book of rules applied to a case of `test_answers`, and the answer printed.
//
// It promises that it is safe and ends; `book` promises the answers. It rests on `book`, on `notation` to read the case, and on
// `test_report` to print what came of it.
//
// A book is written in entries, each ended by `,` or the field. `LEFT > RIGHT` is a place with this rule: the counts are those of the
// sides' records, and all bytes behind these are 255, so that a program which reads them would refuse the rule. Any other entry is bytes in
// the items of `notation`, for a place with other counts, or for a part of one. `n x` before an entry has it n times.

#![tactic(auto)]

ghost use Rattle.std.specs.Prelude.{◌≤◌, ◌≡◌, length};
ghost use Rattle.terms.specs.Figures.{place_bytes};

use book::NewRecipe;
use notation::{STDOUT, build, build_field, bytes_in, field, lend_field, put_number, say};
use records::{PATTERN_RECORDS, PLACE, RECORD, TABLE_BYTES};
use refusals::Refusal;
use test_report::{SHORT, filled, marked, say_operation, say_records, say_untouched, say_work};

// The bytes of a rule's side.
const SIDE: usize = RECORD * PATTERN_RECORDS;

// Room for the shortest book that is longer than other tables may be: its places are counted, and its bytes have no limit of their own.
const ROOM: usize = 253 * PLACE;

// What stands behind the records of a rule's sides: nothing that is a record.
const UNREAD: u8 = 255;

// Puts a rule in its place: the records of both sides, and then their counts.
fn put_rule(left: &[u8], right: &[u8], place: &mut [u8])
    requires { length place.old ≡ place_bytes }
{
    let left_records = build(left, &mut place[RECORD..RECORD + SIDE]) / RECORD;
    let right_records = build(right, &mut place[RECORD + SIDE..PLACE]) / RECORD;
    let middle = put_number(place, 0, left_records);
    put_number(place, middle, right_records);
}

// Puts an entry at byte `at`, as far as there is room.
fn put_entry(entry: &[u8], places: &mut [u8], at: usize) -> usize
    requires { at ≤ length places.old }
    ensures { result ≤ length places.new }
{
    let Some(arrow) = entry.iter().position(|c| *c == b'>') else {
        return at + build(entry, &mut places[at..]);
    };
    if places.len() - at < PLACE {
        return at;
    }
    put_rule(
        &entry[..arrow],
        &entry[arrow + 1..],
        &mut places[at..at + PLACE],
    );
    at + PLACE
}

// How many times an entry stands in the book: the number before `x`. It has no sign, so that `build` takes it for no item.
fn times_of(entry: &[u8]) -> usize {
    match entry.iter().position(|c| *c == b'x') {
        Some(end) => bytes_in(&entry[..end], 1),
        None => 1,
    }
}

// Builds the book that a text writes, and gives its length.
fn build_book(text: &[u8], places: &mut [u8]) -> usize
    ensures { result ≤ length places.new }
{
    let mut at = 0;
    for entry in text.split(|c| *c == b',') {
        for _ in 0..times_of(entry) {
            at = put_entry(entry, places, at);
        }
    }
    at
}

// Prints the number of pairs, and then the new recipe.
fn say_book(answer: Result<NewRecipe, Refusal>, out: &[u8]) {
    match answer {
        Ok(new) => {
            say(b"pairs ");
            io::print_decimal(STDOUT, new.pairs as u64);
            say(b", ");
            say_records(new.records, out);
        }
        Err(c) => say_untouched(c, out),
    }
}

fn run_apply(places: &[u8], recipe: &[u8], out: &mut [u8], work: &mut [u8]) {
    let answer = book::apply(places, recipe, out, work);
    say_book(answer, out);
}

// The tables of a case are made in two functions, as a proof takes longer the more of them one function has.
fn apply_in(case: &[u8], places: &[u8], recipe: &[u8]) {
    let mut o = marked();
    let mut w = marked();
    let work = lend_field(case, 5, TABLE_BYTES, &mut w);
    run_apply(places, recipe, lend_field(case, 4, 0, &mut o), work);
    say_work(work);
}

pub fn apply(case: &[u8]) {
    let mut b = filled::<ROOM>(UNREAD);
    let mut r = filled::<SHORT>(0);
    say_operation(case);
    let end = build_book(field(case, 2), &mut b);
    let recipe = build_field(case, 3, &mut r);
    apply_in(case, &b[..end], recipe);
}
