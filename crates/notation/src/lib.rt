// Tables and numbers that are written as text, and lines of fields, for programs that read their cases from standard input.
//
// A case is one line of fields, each ended by `;` or the line. A table is written in items, each a sign and a number, which is 0 if it is
// left out: `@`, `\`, `#n`, `kn`, `pn` are records, `=n:n` an assigned entry by its first record and its count, `-` an open one, `!n` one
// byte, and `*n` has the next item n times; `..` leaves all entries open from there to the end of a line, however many variables there are.
// A record's number is written to all three bytes behind its kind, whatever the kind, so that cases can have records that are refused.
// A number of bytes is written in digits, or as a number of lines: `2 lines`. It promises that a table's length and a field lie within what
// they are part of; what is read is not promised: the programs print it. It rests on `records` for the kinds and a line's length.

#![tactic(auto)]

ghost use Rattle.std.specs.Prelude.{◌≤◌, length};
ghost use Rattle.io.specs.Counts.{IsPrefixLen};

use records::{Kind, LINE, RECORD, TABLE_BYTES};

// The descriptors of standard input and output.
pub const STDIN: i32 = 0;

pub const STDOUT: i32 = 1;

// How many values one byte has, two bytes, and the three that hold a record's number.
const BYTE: usize = 256;

const WORD: usize = BYTE * BYTE;

const NUMBER: usize = BYTE * WORD;

// The base of a text's numbers.
const TEN: usize = 10;

// An item of a text, and how many times it stands there.
#[derive(Clone, Copy)]
struct Item {
    sign: u8,
    number: usize,
    times: usize,
}

// Puts one byte, if there is room.
pub fn put(out: &mut [u8], at: usize, b: usize) -> usize
    requires { at ≤ length out.old }
    ensures { result ≤ length out.new }
{
    if at == out.len() {
        return at;
    }
    out[at] = (b % BYTE) as u8;
    at + 1
}

// Puts the two low bytes of a number, high byte first.
pub fn put_number(out: &mut [u8], at: usize, number: usize) -> usize
    requires { at ≤ length out.old }
    ensures { result ≤ length out.new }
{
    let low = put(out, at, number / BYTE);
    put(out, low, number)
}

// Puts a kind and the three low bytes of a number, high byte first.
pub fn put_record(out: &mut [u8], at: usize, kind: u8, number: usize) -> usize
    requires { at ≤ length out.old }
    ensures { result ≤ length out.new }
{
    let top = put(out, at, kind as usize);
    let high = put(out, top, number / WORD);
    put_number(out, high, number)
}

// Puts the record, the half of an entry or the byte that a sign and a number stand for.
fn put_item(out: &mut [u8], at: usize, sign: u8, number: usize) -> usize
    requires { at ≤ length out.old }
    ensures { result ≤ length out.new }
{
    match sign {
        b'@' | b'-' | b'.' => put_record(out, at, Kind::APPLICATION.code, number),
        b'\\' => put_record(out, at, Kind::ABSTRACTION.code, number),
        b'#' => put_record(out, at, Kind::LOCAL.code, number),
        b'k' => put_record(out, at, Kind::CONSTANT.code, number),
        b'p' => put_record(out, at, Kind::VARIABLE.code, number),
        b'=' | b':' => put_number(out, at, number),
        b'!' => put(out, at, number),
        _ => at,
    }
}

// How many times an item is put at byte `at`. A `.` is an open entry for each that a line has from there on, so a second one is none.
fn times_at(item: Item, at: usize) -> usize {
    if item.sign != b'.' {
        return item.times;
    }
    if LINE < at {
        return 0;
    }
    (LINE - at) / RECORD
}

fn put_items(out: &mut [u8], at: usize, item: Item) -> usize
    requires { at ≤ length out.old }
    ensures { result ≤ length out.new }
{
    let times = times_at(item, at);
    let mut end = at;
    for _ in 0..times {
        end = put_item(out, end, item.sign, item.number);
    }
    end
}

// Puts the items before the character c, unless c is a digit of their number.
fn put_before(out: &mut [u8], at: usize, item: Item, c: u8) -> usize
    requires { at ≤ length out.old }
    ensures { result ≤ length out.new }
{
    if is_digit(c) {
        return at;
    }
    put_items(out, at, item)
}

fn is_digit(c: u8) -> bool {
    b'0' <= c && c <= b'9'
}

// A number with the digit c behind it; no text has a number that three bytes don't hold.
fn with_digit(number: usize, c: u8) -> usize {
    if NUMBER < number || c < b'0' {
        return number;
    }
    number * TEN + (c - b'0') as usize
}

// The item that is being read, after the character c.
fn read(item: Item, c: u8) -> Item {
    if is_digit(c) {
        return Item {
            sign: item.sign,
            number: with_digit(item.number, c),
            times: item.times,
        };
    }
    if item.sign == b'*' {
        return Item {
            sign: c,
            number: 0,
            times: item.number,
        };
    }
    Item {
        sign: c,
        number: 0,
        times: 1,
    }
}

// Builds the table that a text writes, and gives its length.
pub fn build(text: &[u8], out: &mut [u8]) -> usize
    ensures { IsPrefixLen result out.new }
{
    let mut end = 0;
    let mut item = Item {
        sign: b' ',
        number: 0,
        times: 1,
    };
    for c in text {
        end = put_before(out, end, item, *c);
        item = read(item, *c);
    }
    put_items(out, end, item)
}

// A number of lines, in bytes; no text has one of more than five digits.
fn lines_in(number: usize) -> usize {
    if TABLE_BYTES < number {
        return number;
    }
    number * LINE
}

// A number with the character c behind it: a digit, or the first of the word that makes it one of lines.
fn with_character(number: usize, c: u8) -> usize {
    if is_digit(c) {
        return with_digit(number, c);
    }
    if c == b'l' {
        return lines_in(number);
    }
    number
}

// The number of bytes that a field gives, or `none` if it is empty.
pub fn bytes_in(field: &[u8], none: usize) -> usize {
    if field.len() == 0 {
        return none;
    }
    let mut number = 0;
    for c in field {
        number = with_character(number, *c);
    }
    number
}

// A number of bytes, cut to those that a table has.
pub fn within(bytes: usize, table: &[u8]) -> usize
    ensures { IsPrefixLen result table.now }
{
    if table.len() < bytes {
        return table.len();
    }
    bytes
}

// Where the first `sign` from `at` on stands, or the end.
pub fn find(text: &[u8], at: usize, sign: u8) -> usize
    requires { at ≤ length text.now }
    ensures { (at ≤ result) × (result ≤ length text.now) }
{
    text[at..]
        .iter()
        .position(|c| *c == sign)
        .map_or(text.len(), |i| at + i)
}

// The k-th field of a case, from 0; empty if it has none.
pub fn field(case: &[u8], k: usize) -> &[u8] {
    case.split(|c| *c == b';').nth(k).unwrap_or(b"")
}

// The table that the k-th field writes, built at the start of `room`.
pub fn build_field<'a>(case: &[u8], k: usize, room: &'a mut [u8]) -> &'a mut [u8] {
    let end = build(field(case, k), room);
    &mut room[..end]
}

// As many bytes of a table as the k-th field lends.
pub fn lend_field<'a>(case: &[u8], k: usize, none: usize, table: &'a mut [u8]) -> &'a mut [u8] {
    let end = within(bytes_in(field(case, k), none), table);
    &mut table[..end]
}

pub fn say(text: &[u8]) {
    io::write_all(STDOUT, text);
}

pub fn is_all(table: &[u8], b: u8) -> bool {
    table.iter().all(|byte| *byte == b)
}

// The letter that a field's word starts with, behind a blank.
pub fn letter_of(field: &[u8]) -> u8 {
    if field.len() < 2 {
        return b' ';
    }
    field[1]
}

pub fn say_heading(text: &[u8]) {
    say(text);
    say(b"\n");
}
