// The answers of list, check, sweep, rewrite, the book of rules and the shelf, case by case.
//
// The program reads a table of cases from standard input, runs the operations on them, and prints a line for each: its name, the
// operation, the answer, and whether the bytes behind the answer (`rest`: the whole output table, if the answer is a refusal) and the work
// area are as they were. The table that is kept beside it has document 01's cases, rewrites that take several sweeps, constants of 24 bits,
// values that are closed beside parts that are not, books of rules, walks over a shelf, every refusal that the operations can give, both
// sides of each limit, and the order of the refusals. It promises that it is safe and that it ends; `matcher`, `rewriting`, `book` and
// `shelf` promise the answers and a refusal's number. It rests on `matcher`, on `test_rewriting`, `test_book` and `test_shelf` for the
// other operations, on `notation` to read the cases, and on `test_report` to print what came of them.
//
// A case is one line of fields, each ended by `;` or the line:
//     NAME; list; PATTERN; RECIPE; LINES; VALUES; WORK
//     NAME; check; PATTERN; RECIPE; LINE; VALUES; WORK
//     NAME; sweep; PATTERN; LINE; VALUES; OUTPUT; WORK
//     NAME; rewrite; LEFT; RIGHT; RECIPE; LINE; VALUES; OUTPUT; WORK
//     NAME; book; BOOK; RECIPE; OUTPUT; WORK
//     NAME; walk; CALL; CALL; ...
// WORK, OUTPUT and, of list, LINES and VALUES are numbers of bytes; without one the work area has its right length. The others are tables,
// in the items of `notation`, and BOOK in the entries of `test_book`. CALL is a call on the case's shelf, in the parts of `test_shelf`. Any
// other line is a heading, and printed as it is.
// The values that list wrote are taken to end where the first byte is as it was before the call.
// Cases behind the first 65,536 bytes, and bytes of a table behind the room that `test_report`, `test_book` or `test_shelf` has for it, are
// cut off.

#![tactic(auto)]

use notation::{STDIN, build_field, field, lend_field, letter_of, say_heading};
use records::TABLE_BYTES;
use refusals::Refusal;
use test_book::apply;
use test_report::{SHORT, filled, marked, say_listing, say_operation, say_unlisted, say_work};
use test_rewriting::{check, rewrite, sweep};
use test_shelf::walk;

fn say_list(answer: Result<usize, Refusal>, lines: &[u8], values: &[u8]) {
    match answer {
        Ok(n) => say_listing(n, lines, values),
        Err(c) => say_unlisted(c, lines, values),
    }
}

fn run_list(pattern: &[u8], recipe: &[u8], lines: &mut [u8], values: &mut [u8], work: &mut [u8]) {
    let answer = matcher::list(pattern, recipe, lines, values, work);
    say_list(answer, lines, values);
}

fn list(case: &[u8]) {
    let mut p = filled::<SHORT>(0);
    let mut r = filled::<SHORT>(0);
    let mut l = marked();
    let mut v = marked();
    let mut w = marked();
    say_operation(case);
    let pattern = build_field(case, 2, &mut p);
    let recipe = build_field(case, 3, &mut r);
    let work = lend_field(case, 6, TABLE_BYTES, &mut w);
    run_list(
        pattern,
        recipe,
        lend_field(case, 4, 0, &mut l),
        lend_field(case, 5, 0, &mut v),
        work,
    );
    say_work(work);
}

fn run(case: &[u8]) {
    match letter_of(field(case, 1)) {
        b'l' => list(case),
        b'c' => check(case),
        b's' => sweep(case),
        b'r' => rewrite(case),
        b'b' => apply(case),
        b'w' => walk(case),
        _ => say_heading(case),
    }
}

fn main() {
    let mut cases = io::large_buffer();
    let n = io::read_full(STDIN, &mut cases);
    for line in cases[..n].split_inclusive(|c| *c == b'\n') {
        run(line.strip_suffix(b"\n").unwrap_or(line));
    }
}
