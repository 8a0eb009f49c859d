// What the program prints.
//
// A listing is printed line by line: each assigned entry as its numbers and the records of its value, in hexadecimal digits. The crate
// promises that the text of each printed line is the one that document 01 gives, and that it stays within the tables of a listing. What
// goes to standard output, and in which order, no contract can say: the programs' outputs are compared with stored ones. It rests on
// `records`, `assignments`, `listing` and `arranging`, on `copying` for bytes, and on the kit's `io` to write them.

#![tactic(auto)]

ghost use Rattle.std.specs.Prelude.{◌≡◌, [], ◌∷◌, ◌+◌, ◌*◌, ◌/◌, ◌≤◌, ◌<◌, length, take};
ghost use Rattle.std.proofs.lemmas.List.Edits.{sets};
ghost use Rattle.io.specs.Counts.{IsPrefixLen};
ghost use Rattle.io.specs.Digits.{hex_digit_ascii as Digits·glyph};
ghost use Rattle.terms.specs.Figures.{variables, table_bytes};
ghost use Rattle.records.specs.Tests.{Says};
ghost use Rattle.printing.specs.Text.{Is, Decimal, Numbers, EntryText, Bare, Labelled, hex, record_text, records_text, Puts};
ghost use Rattle.printing.specs.Text.{OpenBefore, room, SpansWithin, Printable};
ghost use Rattle.assignments.specs.declared.Entry.{Entry as assignments·Entry};

use assignments::{Entry, Span};
use records::{LINE, RECORD, TABLE_BYTES, VARIABLES};

// The descriptor of standard output.
const STDOUT: i32 = 1;

// Room for the longest printed line: nine characters for each record of a whole value table, its digits and a blank; and three numbers and
// the line's end.
const ROOM: usize = 9 * (TABLE_BYTES / RECORD) + 64;

fn text_room() -> [u8; ROOM]
    ensures { length result ≡ room }
{
    [0u8; ROOM]
}

// The base of a byte's digits.
const SIXTEEN: u8 = 16;

// Puts one character.
fn put(out: &mut [u8], at: usize, byte: u8) -> usize
    requires { at < length out.old }
    ensures { Puts (Is (byte ∷ [])) out.old at result out.new × (result ≡ at + 1) }
{
    out[at] = byte;
    at + 1
}

// Puts the first k digits.
fn put_digits(out: &mut [u8], at: usize, digits: [u8; 20], k: usize) -> usize
    requires { (at + 20 ≤ length out.old) × IsPrefixLen k digits }
    ensures { (out.new ≡ sets out.old at (take k digits)) × (result ≡ at + k) × (result ≤ at + 20) }
{
    copying::copy_into(&digits[..k], out, at);
    at + k
}

// Puts a number in decimal digits.
fn put_decimal(out: &mut [u8], at: usize, number: usize) -> usize
    requires { at + 20 ≤ length out.old }
    ensures { Puts (Decimal number) out.old at result out.new × (result ≤ at + 20) }
{
    let mut digits = [0u8; 20];
    let k = io::decimal(number as u64, &mut digits);
    put_digits(out, at, digits, k)
}

// A hexadecimal digit.
fn glyph(digit: u8) -> u8
    requires { digit < 16 }
    ensures { result ≡ Digits·glyph digit }
{
    if digit < 10 {
        return b'0' + digit;
    }
    b'a' - 10 + digit
}

// Puts a byte as two hexadecimal digits.
fn put_byte(out: &mut [u8], at: usize, byte: u8) -> usize
    requires { at + 2 ≤ length out.old }
    ensures { Puts (Is (hex byte)) out.old at result out.new × (result ≡ at + 2) }
{
    let low = put(out, at, glyph(byte / SIXTEEN));
    put(out, low, glyph(byte % SIXTEEN))
}

// Puts a blank and the record k of a table.
fn put_record(out: &mut [u8], at: usize, table: &[u8], k: usize) -> usize
    requires { (at + 9 ≤ length out.old) × (4 * k + 4 ≤ length table.now) }
    ensures { Puts (Is (record_text table.now k)) out.old at result out.new × (result ≡ at + 9) }
{
    let i = RECORD * k;
    let kind = put(out, at, b' ');
    let second = put_byte(out, kind, table[i]);
    let high = put_byte(out, second, table[i + 1]);
    let low = put_byte(out, high, table[i + 2]);
    put_byte(out, low, table[i + 3])
}

// Puts the records of a table, each behind a blank.
fn put_records(out: &mut [u8], at: usize, table: &[u8]) -> usize
    requires { at + 9 * (length table.now / 4) ≤ length out.old }
    ensures { Puts (Is (records_text table.now (length table.now / 4))) out.old at
        result out.new × (result ≡ at + 9 * (length table.now / 4)) }
{
    let mut end = at;
    for k in 0..table.len() / RECORD {
        end = put_record(out, end, table, k);
    }
    end
}

// Puts the numbers of an assigned entry.
fn put_numbers(out: &mut [u8], line: usize, variable: usize, count: usize) -> usize
    requires { 62 ≤ length out.old }
    ensures { Puts (Numbers line variable count) out.old 0 result out.new × (result ≤ 62) }
{
    let a = put_decimal(out, 0, line);
    let b = put(out, a, b' ');
    let c = put_decimal(out, b, variable);
    let d = put(out, c, b' ');
    put_decimal(out, d, count)
}

// Puts the printed line of an assigned entry.
fn put_entry(out: &mut [u8], line: usize, variable: usize, count: usize, value: &[u8]) -> usize
    requires { 64 + 9 * (length value.now / 4) ≤ length out.old }
    ensures { Puts (EntryText line variable count value.now) out.old 0 result out.new
        × (result ≤ length out.new) }
{
    let numbers = put_numbers(out, line, variable, count);
    let end = put_records(out, numbers, value);
    put(out, end, b'\n')
}

// Puts the printed line of a line that assigns nothing.
fn put_bare(out: &mut [u8], line: usize) -> usize
    requires { 64 ≤ length out.old }
    ensures { Puts (Bare line) out.old 0 result out.new × (result ≤ length out.new) }
{
    let a = put_decimal(out, 0, line);
    let b = put(out, a, b' ');
    let c = put(out, b, b'-');
    put(out, c, b'\n')
}

// Puts a word and a number.
fn put_labelled(out: &mut [u8], word: &[u8], number: usize) -> usize
    requires { length word.now + 22 ≤ length out.old }
    ensures { Puts (Labelled word.now number) out.old 0 result out.new
        × (result ≤ length out.new) }
{
    copying::copy_into(word, out, 0);
    let a = put(out, word.len(), b' ');
    let b = put_decimal(out, a, number);
    put(out, b, b'\n')
}

fn say(text: &[u8]) {
    io::write_all(STDOUT, text);
}

// Prints a word and a number.
fn print_labelled(out: &mut [u8], word: &[u8], number: usize)
    requires { length word.now + 22 ≤ length out.old }
{
    let end = put_labelled(out, word, number);
    say(&out[..end]);
}

fn print_bare(out: &mut [u8], line: usize)
    requires { 64 ≤ length out.old }
{
    let end = put_bare(out, line);
    say(&out[..end]);
}

// Prints an assigned entry.
fn print_value(out: &mut [u8], line: usize, variable: usize, span: Span, values: &[u8])
    requires { (room ≤ length out.old) × (4 * (span.first + span.count) ≤ length values.now)
        × (length values.now ≤ table_bytes) }
{
    let value = assignments::value_of(values, span);
    let end = put_entry(out, line, variable, span.count, value);
    say(&out[..end]);
}

// Prints the entry of a variable, if it is assigned.
fn print_entry(out: &mut [u8], number: usize, line: &[u8], variable: usize, values: &[u8])
    requires { (room ≤ length out.old) × SpansWithin line.now values.now × (variable < variables) }
{
    let entry = assignments::entry_at(line, variable);
    match entry {
        Entry::Open => {}
        Entry::Assigned(span) => print_value(out, number, variable, span, values),
    }
}

fn is_open(entry: Entry) -> bool
    ensures { Says result (entry ≡ assignments·Entry.Open) }
{
    match entry {
        Entry::Open => true,
        Entry::Assigned(_) => false,
    }
}

// Whether a line assigns nothing.
fn is_bare(line: &[u8]) -> bool
    requires { length line.now ≡ 4 * variables }
    ensures { Says result (OpenBefore line.now variables) }
{
    for v in 0..VARIABLES {
        if !is_open(assignments::entry_at(line, v)) {
            return false;
        }
    }
    true
}

// Prints a line of a listing.
fn print_line(out: &mut [u8], number: usize, line: &[u8], values: &[u8])
    requires { (room ≤ length out.old) × SpansWithin line.now values.now }
{
    if is_bare(line) {
        print_bare(out, number);
        return;
    }
    for v in 0..VARIABLES {
        print_entry(out, number, line, v, values);
    }
}

fn print_lines(out: &mut [u8], count: usize, lines: &[u8], values: &[u8])
    requires { (room ≤ length out.old) × Printable count lines.now values.now }
{
    print_labelled(out, b"matches", count);
    for i in 0..count {
        let from = LINE * i;
        print_line(out, i, &lines[from..from + LINE], values);
    }
}

// Prints a listing of n lines.
pub fn print_listing(count: usize, lines: &[u8], values: &[u8])
    requires { Printable count lines.now values.now }
{
    let mut out = text_room();
    print_lines(&mut out, count, lines, values);
}

// Prints a refusal by its number, so that what prints rests on nothing that refuses.
pub fn print_refusal(number: u64) {
    let mut out = text_room();
    print_labelled(&mut out, b"refused", number as usize);
}
