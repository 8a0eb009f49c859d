// Listings against a plain enumeration, on named examples and on random patterns and recipes.
//
// The program goes through all runs of up to six records and keeps those that are closed normal terms over the constants 0 to 2; wide
// terms are the same with constants of up to 24 bits in their place. For each pattern and recipe it lists, and then tries every assignment
// of the pattern's variables to the first of these terms, or to a few that are drawn: check and the swept form must say the same, a match
// must agree with exactly one line, and what is no match with none. Every line must rise above the one before, have its values where
// document 01 puts them, and match however its open variables are filled; the bytes behind stay and the work area is zero. The enumeration
// doesn't use the search. The program prints what it compared and how many of each outcome. It promises that it is safe and that it ends;
// `matcher` promises the rest. It rests on `notation` to read the cases, on `test_pool` for the terms, and on `test_groups` to try an
// example or a group of random cases.
//
// A case is one line of fields, each ended by `;` or the line:
//     NAME; list; PATTERN; RECIPE; COUNT; REFUSAL
//     NAME; wide; PATTERN; RECIPE; COUNT; REFUSAL
//     NAME; random; SHAPE; SEED; CASES
//     NAME; total; NUMBER
// COUNT is the number of lines, found by other means, and REFUSAL the number of the refusal, if there is to be one. A wide case is listed
// as any other, and tried with the wide terms. So are random cases, whose patterns and recipes have the constants of these. SHAPE is the
// number of what the patterns are to have many of: 0 nothing special, 1 applied abstractions, 2 abstractions over `M #0`, 3 both, 4
// repeated variables, 5 locals, 6 all variables. NUMBER is that of a total in `test_totals`, over all cases so far. Any other line is a
// heading, and printed as it is.

#![tactic(auto)]

use notation::{STDIN, bytes_in, field, letter_of, say_heading, within};
use test_cases::ENTRIES;
use test_draw::generate::Shape;
use test_groups::{try_example, try_group};
use test_pool::{Terms, widen};
use test_report::filled;
use test_totals::Totals;

fn run_example(case: &[u8], terms: Terms<'_>, all: &mut Totals) {
    let mut totals = Totals::NONE;
    let count = try_example(case, terms, &mut totals);
    let expected = bytes_in(field(case, 4), 0);
    let refusal = bytes_in(field(case, 5), 0);
    totals.tally_expected(count, expected, refusal);
    totals.say_expected(field(case, 0), refusal);
    all.add(&totals);
}

fn run_group(case: &[u8], terms: Terms<'_>, all: &mut Totals) {
    let mut totals = Totals::NONE;
    let shape = Shape::numbered(bytes_in(field(case, 2), 0));
    let seed = bytes_in(field(case, 3), 0) as u64;
    let cases = bytes_in(field(case, 4), 0);
    try_group(shape, seed, cases, terms, &mut totals);
    totals.say_group(field(case, 0));
    all.add(&totals);
}

fn run(case: &[u8], terms: Terms<'_>, wide: Terms<'_>, all: &mut Totals) {
    match letter_of(field(case, 1)) {
        b'l' => run_example(case, terms, all),
        b'w' => run_example(case, wide, all),
        b'r' => run_group(case, wide, all),
        b't' => all.say_line(field(case, 0), bytes_in(field(case, 2), 0)),
        _ => say_heading(case),
    }
}

fn run_with(terms: Terms<'_>, wide: Terms<'_>) {
    let mut cases = io::large_buffer();
    let mut all = Totals::NONE;
    let n = io::read_full(STDIN, &mut cases);
    for line in cases[..n].split_inclusive(|c| *c == b'\n') {
        run(
            line.strip_suffix(b"\n").unwrap_or(line),
            terms,
            wide,
            &mut all,
        );
    }
}

fn main() {
    let mut values = io::large_buffer();
    let mut room = filled::<ENTRIES>(0);
    // The part of the value table that list is not lent.
    let end = test_pool::fill(test_tables::LENT, &mut values, &mut room);
    let mut wide = values;
    widen(&mut wide);
    let entries = &room[..within(end, &room)];
    run_with(
        Terms {
            entries,
            values: &values,
        },
        Terms {
            entries,
            values: &wide,
        },
    );
}
