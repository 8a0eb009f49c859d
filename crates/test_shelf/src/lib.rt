// A walk over a shelf in a case of `test_answers`: calls in turn on one shelf, and the answer of each printed.
//
// It promises that it is safe and ends; `shelf` promises the answers. It rests on `shelf`, on `notation` to read the case, and on
// `test_report` to print what came of it.
//
// The shelf is new and empty before the first call of a case. A call is a field, its parts ended by `,` or the field:
//     put BUOY, RECIPE
//     take-out BUOY
//     read BUOY, OUTPUT
//     count
//     fill FROM..END, RECIPE
//     bytes AT, BYTES
// RECIPE and BYTES are tables in the items of `notation`, and OUTPUT is a number of bytes; without it there is room for every recipe. The
// third and the fourth part of each are how many bytes of the directory and of the record table it is lent; without them all. `fill` puts
// the recipe at each buoy from FROM on that is below END, with the buoy's number for its last byte, so that no two are equal; its answer is
// how many puts were answered yes. `bytes` is no call of the shelf: it writes to the directory, for what calls take too long to reach.

#![tactic(auto)]

ghost use Rattle.std.specs.Prelude.{◌≤◌};

use notation::{STDOUT, build, bytes_in, field, find, letter_of, say, within};
use records::{RECIPE_RECORDS, RECORD, SHELF_RECORDS};
use refusals::Refusal;
use storage::DIRECTORY_BYTES;
use test_report::{LENT, SHORT, filled, marked, say_refused, say_written};

// Room for a directory that is one record too long.
const ROOM: usize = DIRECTORY_BYTES + RECORD;

const SHELF_BYTES: usize = RECORD * SHELF_RECORDS;

const LONGEST: usize = RECORD * RECIPE_RECORDS;

// The k-th part of a text that a sign divides, from 0; empty if it has none.
fn part(text: &[u8], sign: u8, k: usize) -> &[u8] {
    text.split(|c| *c == sign).nth(k).unwrap_or(&[])
}

// The k-th part of a call.
fn part_of(call: &[u8], k: usize) -> &[u8] {
    part(call, b',', k)
}

// The number in a call's first part, which has a word before it.
fn number_in(call: &[u8]) -> usize {
    bytes_in(part_of(call, 0), 0)
}

// As many bytes of a table as a part lends.
fn lend<'a>(part: &[u8], none: usize, table: &'a mut [u8]) -> &'a mut [u8] {
    let end = within(bytes_in(part, none), table);
    &mut table[..end]
}

fn say_change(answer: Result<(), Refusal>) {
    match answer {
        Ok(()) => say(b"yes"),
        Err(c) => say_refused(c),
    }
}

fn say_number(n: usize) {
    io::print_decimal(STDOUT, n as u64);
}

fn say_count(answer: Result<usize, Refusal>) {
    match answer {
        Ok(n) => say_number(n),
        Err(c) => say_refused(c),
    }
}

fn run_put(call: &[u8], directory: &mut [u8], table: &mut [u8]) {
    let mut r = filled::<SHORT>(0);
    let end = build(part_of(call, 1), &mut r);
    let answer = shelf::put(number_in(call), &r[..end], directory, table);
    say_change(answer);
}

fn run_read(call: &[u8], directory: &[u8], table: &[u8]) {
    let mut o = marked();
    let out = lend(part_of(call, 1), LONGEST, &mut o);
    let answer = shelf::read(number_in(call), directory, table, out);
    say_written(answer, out);
}

// Gives a recipe the buoy's number for its last byte.
fn name_by(buoy: usize, recipe: &mut [u8]) {
    if let Some(last) = recipe.last_mut() {
        *last = (buoy % 256) as u8;
    }
}

// Puts a recipe at one buoy of `fill`, and gives how many puts were answered yes: 1 or 0.
fn fill_buoy(buoy: usize, recipe: &mut [u8], directory: &mut [u8], table: &mut [u8]) -> usize
    ensures { result ≤ 1 }
{
    name_by(buoy, recipe);
    let answer = shelf::put(buoy, recipe, directory, table);
    match answer {
        Ok(()) => 1,
        Err(_) => 0,
    }
}

// Puts a recipe at the buoys of a range, and gives how many puts were answered yes.
fn fill_range(
    from: usize,
    end: usize,
    recipe: &mut [u8],
    directory: &mut [u8],
    table: &mut [u8],
) -> usize {
    let mut yes = 0;
    for buoy in from..end {
        yes += fill_buoy(buoy, recipe, directory, table);
    }
    yes
}

fn run_fill(call: &[u8], directory: &mut [u8], table: &mut [u8]) {
    let mut r = filled::<SHORT>(0);
    let n = build(part_of(call, 1), &mut r);
    let range = part_of(call, 0);
    let (first, behind) = range.split_at(find(range, 0, b'.'));
    let from = bytes_in(first, 0);
    let end = bytes_in(behind, 0);
    say_number(fill_range(from, end, &mut r[..n], directory, table));
    say(b" yes");
}

// Writes bytes to the directory from a byte on.
fn run_bytes(call: &[u8], directory: &mut [u8]) {
    let from = within(number_in(call), directory);
    build(part_of(call, 1), &mut directory[from..]);
    say(b"written");
}

// Runs a call on the tables that it is lent.
fn run_lent(call: &[u8], directory: &mut [u8], table: &mut [u8]) {
    match letter_of(call) {
        b'p' => run_put(call, directory, table),
        b't' => say_change(shelf::take_out(number_in(call), directory, table)),
        b'r' => run_read(call, directory, table),
        b'c' => say_count(shelf::count(directory)),
        b'f' => run_fill(call, directory, table),
        b'b' => run_bytes(call, directory),
        _ => say(b"no call"),
    }
}

// Prints a call's first part, runs the call and prints its answer.
fn run(call: &[u8], directory: &mut [u8], table: &mut [u8]) {
    say(b" |");
    say(part_of(call, 0));
    say(b": ");
    run_lent(
        call,
        lend(part_of(call, 2), DIRECTORY_BYTES, directory),
        lend(part_of(call, 3), SHELF_BYTES, table),
    );
}

pub fn walk(case: &[u8]) {
    let mut directory = filled::<ROOM>(0);
    let mut table = filled::<LENT>(0);
    say(field(case, 0));
    say(b":");
    say(field(case, 1));
    // The last call may be ended by `;` too, and no call stands behind it.
    for call in case.split_inclusive(|c| *c == b';').skip(2) {
        run(
            call.strip_suffix(b";").unwrap_or(call),
            &mut directory,
            &mut table,
        );
    }
    say(b"\n");
}
