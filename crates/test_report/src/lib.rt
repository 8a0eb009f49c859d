// The tables that the cases of `test_answers` lend, and the text of what an operation answered and left in them.
//
// It promises that it is safe and ends, and how long the tables are. It rests on `notation`, and on `refusals` for a refusal's number.

#![tactic(auto)]

ghost use Rattle.std.specs.Prelude.{◌+◌, ◌*◌, ◌≡◌, length};
ghost use Rattle.terms.specs.Figures.{variables, table_bytes};

use notation::{STDOUT, field, find, is_all, say, within};
use records::{LINE, RECORD, TABLE_BYTES};
use refusals::Refusal;

// Room for a table that is one line too long.
pub const LENT: usize = TABLE_BYTES + LINE;

// Room for a pattern, a recipe or a line that is too long.
pub const SHORT: usize = 512;

// What the bytes of an output table and a work area are before a call.
pub const MARK: u8 = 238;

// A table all of whose bytes are the same. Each large array is from this function: a proof then has its length, and no literal to compute
// with.
pub fn filled<const N: usize>(byte: u8) -> [u8; N]
    ensures { N ≡ length result }
{
    [byte; N]
}

// A table that is written, or a work area, before a call.
pub fn marked() -> [u8; LENT]
    ensures { table_bytes + 4 * variables ≡ length result }
{
    filled(MARK)
}

// Prints the records of a table.
fn say_table(table: &[u8]) {
    for record in table.chunks(RECORD) {
        say(b" ");
        for byte in record {
            io::print_hex(STDOUT, u64::from(*byte), 2);
        }
    }
}

// Prints the records of a table's first bytes.
fn say_front(table: &[u8], bytes: usize) {
    let end = within(bytes, table);
    say_table(&table[..end]);
}

// Prints what became of the bytes behind them.
fn say_behind(table: &[u8], bytes: usize) {
    let end = within(bytes, table);
    say_left(&table[end..]);
}

fn say_rest() {
    say(b"; rest");
}

// Prints a count of records, the records and what became of the bytes behind.
pub fn say_records(n: usize, out: &[u8]) {
    let bytes = n.saturating_mul(RECORD);
    say(b"records ");
    io::print_decimal(STDOUT, n as u64);
    say_front(out, bytes);
    say_rest();
    say_behind(out, bytes);
}

// Prints the lines, their values and what became of the bytes behind.
fn say_lines(bytes: usize, lines: &[u8], values: &[u8]) {
    let end = find(values, 0, MARK);
    say_front(lines, bytes);
    say(b"; values");
    say_front(values, end);
    say_rest();
    say_behind(lines, bytes);
    say_behind(values, end);
}

// Prints a count of lines, and then these.
pub fn say_listing(n: usize, lines: &[u8], values: &[u8]) {
    say(b"lines ");
    io::print_decimal(STDOUT, n as u64);
    say_lines(n.saturating_mul(LINE), lines, values);
}

pub fn say_refused(c: Refusal) {
    say(b"refused ");
    io::print_decimal(STDOUT, refusals::number_of(c));
}

pub fn say_unlisted(c: Refusal, lines: &[u8], values: &[u8]) {
    say_refused(c);
    say_rest();
    say_left(lines);
    say_left(values);
}

pub fn say_untouched(c: Refusal, out: &[u8]) {
    say_refused(c);
    say_rest();
    say_left(out);
}

// Prints the answer of an operation that writes records.
pub fn say_written(answer: Result<usize, Refusal>, out: &[u8]) {
    match answer {
        Ok(n) => say_records(n, out),
        Err(c) => say_untouched(c, out),
    }
}

// Prints what became of bytes that held MARK.
fn say_left(table: &[u8]) {
    if is_all(table, MARK) {
        say(b" kept");
    } else if is_all(table, 0) {
        say(b" zero");
    } else {
        say(b" changed");
    }
}

pub fn say_work(work: &[u8]) {
    say(b"; work");
    say_left(work);
    say(b"\n");
}

// Prints the name of a case and its operation, as its fields have them.
pub fn say_operation(case: &[u8]) {
    say(field(case, 0));
    say(b":");
    say(field(case, 1));
    say(b" ");
}
