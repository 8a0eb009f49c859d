// Tables of 4-byte records: read, written and judged.
//
// A term is a table of records in the order head before argument, so a table is read by the kinds of its records alone. The crate has the
// kinds, one record read and written, the parts of a table, tests of the term that a table holds (closed, normal, which locals it uses),
// and the checks by which bytes from outside come in. It promises that each check gives exactly the first of document 01's causes 1 to 7
// that holds, for any bytes at all, and that each test answers for the very term whose table it was lent. It rests on the definitions of
// `terms`; that a record begins with its kind is used throughout, how its other bytes lie only by the functions of one record.
//
// `part_end` looks at the kinds alone and passes each record once; that a term stands there is promised for good records, which
// `good_records` tells. The checks need no `requires`: what they find is what the other functions require, so that a caller with raw bytes
// can meet it.

#![tactic(auto)]

ghost use Rattle.std.specs.Prelude.{◌≡◌, [], ◌+◌, ◌*◌, ◌≤◌, ◌<◌, length, get_or};
ghost use Rattle.std.proofs.Math.Option.{some};
ghost use Rattle.std.proofs.lemmas.List.Edits.{sets};
ghost use Rattle.terms.specs.Figures.{numbers, words, table_bytes};
ghost use Rattle.terms.specs.Term.{Term, is_eta, Normal, Closed};
ghost use Rattle.terms.specs.Refusal.{BadLength, pattern_rows, recipe_rows, normal_rows};
ghost use Rattle.terms.specs.Table.{encode, record_bytes, second_byte_allowed, allowed, good_records};
ghost use Rattle.terms.specs.Table.{application_kind, abstraction_kind, variable_kind};
ghost use Rattle.terms.specs.Layout.{word_at};
ghost use Rattle.records.specs.Record.{kind_of, parts as parts_of, read_parts, number_at, record_at, innermost_at};
ghost use Rattle.records.specs.Parts.{Whole, Ends, Reached, Ended, Tree, Divided, Lies};
ghost use Rattle.records.specs.Tests.{Says, Tells, Equals, Head, asked, Asks, Walked};
ghost use Rattle.records.specs.Checks.{pattern_refusal, recipe_refusal, Answers, Pattern, NormalTable, Recipe, ValueTable, OneTerm};
ghost use Rattle.records.specs.Checks.{Good, TableChecked, of_recipe};

// The bytes of one record.
pub const RECORD: usize = 4;

// The kind of a record, by its number in document 01. A struct with constants and a constructor from a byte: that document names this form.
#[derive(Clone, Copy)]
pub struct Kind {
    pub code: u8,
}

impl Kind {
    pub const APPLICATION: Kind = Kind { code: 0 };

    pub const ABSTRACTION: Kind = Kind { code: 1 };

    pub const LOCAL: Kind = Kind { code: 2 };

    pub const CONSTANT: Kind = Kind { code: 3 };

    pub const VARIABLE: Kind = Kind { code: 4 };

    // Five bytes are kinds, and no other.
    pub fn from_byte(byte: u8) -> Option<Kind>
        ensures { result ≡ kind_of byte }
    {
        if byte <= Kind::VARIABLE.code {
            Some(Kind { code: byte })
        } else {
            None
        }
    }

    // How many parts follow a record of this kind: head and argument, body, or none.
    pub fn parts(self) -> usize
        ensures { (result ≡ parts_of self.code) × (result ≤ 2) }
    {
        let code = self.code;
        if code == Kind::APPLICATION.code {
            return 2;
        }
        if code == Kind::ABSTRACTION.code {
            return 1;
        }
        0
    }

    // Whether a record of this kind may have this second byte: it counts in a constant's number, and is zero in every other kind.
    fn allows_second(self, byte: u8) -> bool
        ensures { result ≡ second_byte_allowed self.code byte }
    {
        let code = self.code;
        code == Kind::CONSTANT.code || byte == 0
    }

    // Whether a record of this kind may have this number, where the variables are those below `variables`.
    fn allows(self, number: usize, variables: usize) -> bool
        requires { self.code ≤ variable_kind }
        ensures { result ≡ allowed variables (some (self.code, number)) }
    {
        let code = self.code;
        if code == Kind::VARIABLE.code {
            return number < variables;
        }
        if code <= Kind::ABSTRACTION.code {
            return number == 0;
        }
        true
    }
}

// How many parts follow a record that begins with the byte; behind a byte that is no kind there is none.
fn parts_behind(byte: u8) -> usize
    ensures { (result ≡ read_parts (kind_of byte)) × (result ≤ 2) }
{
    Kind::from_byte(byte).map_or(0, |kind| kind.parts())
}

// A byte as a number of the width that positions have.
pub fn wide(byte: u8) -> usize
    ensures { (result ≡ byte) × (result < 256) }
{
    byte as usize
}

// The 16-bit number at byte `at`, high byte first.
pub fn word_at(s: &[u8], at: usize) -> usize
    requires { at + 2 ≤ length s.now }
    ensures { (result ≡ word_at s.now at) × (result < words) }
{
    wide(s[at]) * 256 + wide(s[at + 1])
}

// The number of the record whose first byte is at `at`.
pub fn number_at(s: &[u8], at: usize) -> usize
    requires { at + 4 ≤ length s.now }
    ensures { (result ≡ number_at s.now at) × (result < numbers) }
{
    wide(s[at + 1]) * 65536 + word_at(s, at + 2)
}

// Writes one record at byte `at`; nothing else changes.
pub fn put_record(out: &mut [u8], at: usize, kind: Kind, number: usize)
    requires { (at + 4 ≤ length out.old) × (number < numbers) }
    ensures { out.new ≡ sets out.old at (record_bytes kind.code number []) }
{
    let code = kind.code;
    out[at] = code;
    out[at + 1] = (number / 65536 % 256) as u8;
    out[at + 2] = (number / 256 % 256) as u8;
    out[at + 3] = (number % 256) as u8;
}

// How far a pass over records came, and how many parts are missing there.
#[derive(Clone, Copy)]
struct Pass {
    at: usize,
    missing: usize,
}

// Passes the part that begins at byte `from`, each record once. A record is the start of one part that was missing, and makes its own
// parts missing; when none is missing the part has ended. Where the bytes run out before that, no term stands at `from`.
fn pass_part(s: &[u8], from: usize) -> Pass
    requires { from ≤ length s.now }
    ensures { Reached s.now from result.missing result.at }
{
    let mut at = from;
    let mut missing = 1;
    for record in s[from..].chunks_exact(RECORD) {
        if missing == 0 {
            break;
        }
        missing = missing - 1 + parts_behind(record[0]);
        at += RECORD;
    }
    Pass { at, missing }
}

// Where the part that s begins with ends, of any bytes, or that none ends in them. It looks at the kinds alone, so that the bytes before
// the end are a term only where they are good records.
pub fn part_end(s: &[u8]) -> Option<usize>
    ensures { Ended s.now result }
{
    let p = pass_part(s, 0);
    (p.missing == 0).then_some(p.at)
}

// Where the part at byte `at` ends, which is known to stand there.
pub fn end_at(s: &[u8], at: usize) -> usize
    requires { Whole s.now at }
    ensures { Ends s.now at result }
{
    let p = pass_part(s, at);
    p.at
}

// Where the head of the application s ends, and its argument begins.
pub fn head_end(s: &[u8]) -> usize
    requires { Tree s.now × (get_or s.now 0 0 ≡ application_kind) }
    ensures { Divided s.now result }
{
    end_at(s, RECORD)
}

// The head of the application s.
pub fn head_of(s: &[u8]) -> &[u8]
    requires { Tree s.now × (get_or s.now 0 0 ≡ application_kind) }
    ensures lies { Lies s.now result.now }
    ensures is { (f a : Term) → s.now ≡ encode (Term.app f a) → result.now ≡ encode f }
{
    let h = head_end(s);
    &s[RECORD..h]
}

// The argument of the application s.
pub fn argument_of(s: &[u8]) -> &[u8]
    requires { Tree s.now × (get_or s.now 0 0 ≡ application_kind) }
    ensures lies { Lies s.now result.now }
    ensures is { (f a : Term) → s.now ≡ encode (Term.app f a) → result.now ≡ encode a }
{
    let h = head_end(s);
    &s[h..]
}

// The body of the abstraction s.
pub fn body_of(s: &[u8]) -> &[u8]
    requires { Tree s.now × (get_or s.now 0 0 ≡ abstraction_kind) }
    ensures lies { Lies s.now result.now }
    ensures is { (b : Term) → s.now ≡ encode (Term.lam b) → result.now ≡ encode b }
{
    &s[RECORD..]
}

// Whether the four bytes at `at` are a record that a table may hold.
fn is_allowed(s: &[u8], at: usize, variables: usize) -> bool
    requires { at + 4 ≤ length s.now }
    ensures { result ≡ allowed variables (record_at s.now at) }
{
    let Some(kind) = Kind::from_byte(s[at]) else {
        return false;
    };
    if kind.allows_second(s[at + 1]) {
        return kind.allows(number_at(s, at), variables);
    }
    false
}

// Whether s is whole records, each one that a table may hold.
pub fn good_records(s: &[u8], variables: usize) -> bool
    ensures { result ≡ good_records variables s.now }
{
    for record in s.chunks_exact(RECORD) {
        if !is_allowed(record, 0, variables) {
            return false;
        }
    }
    s.len() % RECORD == 0
}

// What is asked of each local of a part: that its number is below n, or that it isn't n. Below a binder n is one more.
#[derive(Clone, Copy)]
pub enum Ask {
    Bound,
    Other,
}

impl Ask {
    fn holds(self, local: usize, n: usize) -> bool
        ensures { result ≡ asked self local n }
    {
        match self {
            Ask::Bound => local < n,
            Ask::Other => local != n,
        }
    }
}

// Asks the locals of the part that s begins with, each record once: where the head ends the argument is known to begin. Answers how many
// bytes the part takes, or that what is asked of it doesn't hold.
pub fn ask_part(s: &[u8], ask: Ask, n: usize) -> Option<usize>
    requires { Whole s.now 0 × (n + length s.now ≤ table_bytes) }
    ensures { Walked s.now 0 (Asks ask n) result }
{
    let kind = s[0];
    if kind == Kind::APPLICATION.code {
        let next = RECORD + ask_part(&s[RECORD..], ask, n)?;
        return Some(next + ask_part(&s[next..], ask, n)?);
    }
    if kind == Kind::ABSTRACTION.code {
        return Some(RECORD + ask_part(&s[RECORD..], ask, n + 1)?);
    }
    if kind == Kind::LOCAL.code {
        return ask.holds(number_at(s, 0), n).then_some(RECORD);
    }
    Some(RECORD)
}

// Whether the locals of the term s have their binders within it or among `depth` binders above it.
pub fn is_closed(s: &[u8], depth: usize) -> bool
    requires { Tree s.now × (depth + length s.now ≤ table_bytes) }
    ensures { Tells s.now (Closed depth) result }
{
    ask_part(s, Ask::Bound, depth).is_some()
}

// Whether the record at byte `at` is the innermost local.
fn innermost_at(s: &[u8], at: usize) -> bool
    requires { at + 4 ≤ length s.now }
    ensures { result ≡ innermost_at s.now at }
{
    if s[at] == Kind::LOCAL.code {
        return number_at(s, at) == 0;
    }
    false
}

// Whether the abstraction over the term s is a redex: s is an application to the innermost local, which its head doesn't use. The local is
// then the last record, and the head ends there; most terms are ruled out by their last record alone.
pub fn is_eta(s: &[u8]) -> bool
    requires { Tree s.now × (length s.now ≤ table_bytes) }
    ensures { Equals s.now is_eta result }
{
    if s[0] != Kind::APPLICATION.code {
        return false;
    }
    let last = s.len() - RECORD;
    if !innermost_at(s, last) {
        return false;
    }
    match ask_part(&s[RECORD..], Ask::Other, 0) {
        Some(head) => RECORD + head == last,
        None => false,
    }
}

// Walks over the part that s begins with if it is normal. The abstraction that is itself a redex is ruled out by its body, whose end is
// then known; the application by its head. An argument and a body may be any normal term.
#[cycle(normal)]
fn normal_part(s: &[u8]) -> Option<usize>
    requires { Whole s.now 0 × (length s.now ≤ table_bytes) }
    ensures { Walked s.now 0 Normal result }
{
    let kind = s[0];
    if kind == Kind::ABSTRACTION.code {
        let end = RECORD + normal_part(&s[RECORD..])?;
        if is_eta(&s[RECORD..end]) {
            return None;
        }
        return Some(end);
    }
    if kind == Kind::APPLICATION.code {
        let next = RECORD + head_part(&s[RECORD..])?;
        return Some(next + normal_part(&s[next..])?);
    }
    Some(RECORD)
}

// Walks over the part that s begins with if it is normal and no abstraction, so that it may be a head.
#[cycle(normal)]
fn head_part(s: &[u8]) -> Option<usize>
    requires { Whole s.now 0 × (length s.now ≤ table_bytes) }
    ensures { Walked s.now 0 Head result }
{
    let kind = s[0];
    if kind == Kind::ABSTRACTION.code {
        return None;
    }
    if kind == Kind::APPLICATION.code {
        let next = RECORD + head_part(&s[RECORD..])?;
        return Some(next + normal_part(&s[next..])?);
    }
    Some(RECORD)
}

// Whether the term s is normal.
pub fn is_normal(s: &[u8]) -> bool
    requires { Tree s.now × (length s.now ≤ table_bytes) }
    ensures { Tells s.now Normal result }
{
    normal_part(s).is_some()
}

// The documents' figures. A contract, here or in a crate above, cites each by its name in `terms`, and holds only if the two agree.
pub const VARIABLES: usize = 8;

pub const PATTERN_RECORDS: usize = 32;

pub const RECIPE_RECORDS: usize = 96;

pub const VALUE_RECORDS: usize = 160;

pub const SWEPT_RECORDS: usize = 256;

// The most sweeps that are made to reach a normal form.
pub const MOST_SWEEPS: usize = 64;

// The bytes of a place of a book, which has two counts and the records of two sides, and the most places of a book.
pub const PLACE: usize = RECORD + 2 * RECORD * PATTERN_RECORDS;

pub const MOST_PLACES: usize = 64;

// The buoys of a shelf, the records of its table, and the highest count of changes.
pub const BUOYS: usize = 200;

pub const SHELF_RECORDS: usize = 16384;

pub const CEILING: usize = 4294967295;

// The bytes of a line, which has an entry of a record's length for each variable.
pub const LINE: usize = RECORD * VARIABLES;

// The most bytes of a line, value or output table, and the bytes of a work area.
pub const TABLE_BYTES: usize = 65536;

// What is wrong with a table that is to be a pattern or a right side.
#[derive(Clone, Copy, Debug, PartialEq, Eq)]
pub enum PatternFault {
    BadLength,
    BadRecord,
    NoTerm,
}

// What is wrong with a table that is to be a recipe.
#[derive(Clone, Copy, Debug, PartialEq, Eq)]
pub enum RecipeFault {
    BadLength,
    BadRecord,
    NoTerm,
    NotNormal,
}

impl From<PatternFault> for RecipeFault {
    ghost from_gives = { λ found fault. fault ≡ of_recipe found };

    fn from(found: PatternFault) -> RecipeFault {
        match found {
            PatternFault::BadLength => RecipeFault::BadLength,
            PatternFault::BadRecord => RecipeFault::BadRecord,
            PatternFault::NoTerm => RecipeFault::NoTerm,
        }
    }
}

// Whether s is empty, has more than `most` records, or ends within one.
fn is_bad_length(table: &[u8], most: usize) -> bool
    ensures { Says result (BadLength most table.now) }
{
    let n = table.len();
    if n == 0 {
        return true;
    }
    if n % RECORD != 0 {
        return true;
    }
    most < n / RECORD
}

// Whether good records are one whole term, each of whose locals has its binder.
fn is_one_term(table: &[u8]) -> bool
    requires { Good table.now × (length table.now ≤ table_bytes) }
    ensures { Says result (OneTerm table.now) }
{
    match part_end(table) {
        Some(end) => table.len() <= end && is_closed(table, 0),
        None => false,
    }
}

// Checks any bytes, in the order of document 01's causes, with the figures of the table that they are to be.
fn check_table(table: &[u8], most: usize, variables: usize) -> Result<(), PatternFault>
    requires { 4 * most ≤ table_bytes }
    ensures { TableChecked most variables table.now result }
{
    if is_bad_length(table, most) {
        return Err(PatternFault::BadLength);
    }
    if !good_records(table, variables) {
        return Err(PatternFault::BadRecord);
    }
    if is_one_term(table) {
        return Ok(());
    }
    Err(PatternFault::NoTerm)
}

// Checks a pattern, or a right side.
pub fn check_pattern(pattern: &[u8]) -> Result<(), PatternFault>
    ensures { Answers (pattern_rows pattern.now) (Pattern pattern.now) (pattern_refusal result) }
{
    check_table(pattern, PATTERN_RECORDS, VARIABLES)
}

// Checks any bytes that are to be a normal term without variables, of at most `most` records.
fn check_normal(table: &[u8], most: usize) -> Result<(), RecipeFault>
    requires { 4 * most ≤ table_bytes }
    ensures { Answers (normal_rows most table.now) (NormalTable most table.now) (recipe_refusal result) }
{
    check_table(table, most, 0)?;
    if !is_normal(table) {
        return Err(RecipeFault::NotNormal);
    }
    Ok(())
}

// Checks a recipe.
pub fn check_recipe(recipe: &[u8]) -> Result<(), RecipeFault>
    ensures { Answers (recipe_rows recipe.now) (Recipe recipe.now) (recipe_refusal result) }
{
    check_normal(recipe, RECIPE_RECORDS)
}

// Whether s is the table of a value, of a size that document 01 allows.
pub fn check_value(value: &[u8]) -> bool
    ensures { Says result (ValueTable value.now) }
{
    check_normal(value, VALUE_RECORDS).is_ok()
}
