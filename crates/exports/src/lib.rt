// The operations for C and Rust: each table as a pointer and a length, the answer as one number.
//
// `include/onestep.h` documents the nine functions. Each calls its operation and gives the number of the answer: lines or records written,
// 1 or 0 for yes or no, a shelf's count of changes, or minus the documents' number of a refusal; the book's number of pairs is written
// behind a pointer, and a refusal leaves it as it was. The crate promises that the number is that of an answer which the operation may give
// on these tables, that -9 is given exactly if list's 9 is due, and that the tables and the work area are left as the operation leaves
// them. It rests on `matcher`, `rewriting`, `book` and `shelf`; the static library is built from it.
//
// The answers are stated by `count_code`, `check_code`, `change_code` and `book_code`; no two answers of an operation have one number, or,
// of the book, one number and one number of pairs (`proofs/Codes`), so that these say which it is; and no two numbers meet a promise on the
// same tables (`proofs/Determined`). The crate stands by itself because a crate is a library or a static library, and not both: `rt lib` in
// its folder builds the archive.

#![tactic(auto)]

ghost use Rattle.std.specs.Prelude.{◌≡◌};
ghost use Rattle.refusals.specs.Lent.{cleared};
ghost use Rattle.exports.specs.Answers.{Counts, refusal_code, count_code, check_code, change_code};
ghost use Rattle.exports.specs.Answers.{ListedAs, NineAs, CheckedAs, SweptAs, RewrittenAs, BookedAs};
ghost use Rattle.exports.specs.Answers.{PutAs, TakenOutAs, ReadOutAs, CountedAs};

use refusals::Refusal;

// Minus the documents' number of a refusal.
fn refusal_code(refusal: Refusal) -> i64
    ensures { result ≡ refusal_code refusal }
{
    let number = refusals::number_of(refusal) as i64;
    -number
}

// The number of an answer that counts lines, records or changes.
fn count_code(answer: Result<usize, Refusal>) -> i64
    requires { Counts answer }
    ensures { result ≡ count_code answer }
{
    match answer {
        Ok(n) => n as i64,
        Err(refusal) => refusal_code(refusal),
    }
}

// The number of an answer that is yes or no.
fn check_code(answer: Result<bool, Refusal>) -> i64
    ensures { result ≡ check_code answer }
{
    match answer {
        Ok(true) => 1,
        Ok(false) => 0,
        Err(refusal) => refusal_code(refusal),
    }
}

// The number of an answer that says no more than that a shelf was changed.
fn change_code(answer: Result<(), Refusal>) -> i64
    ensures { result ≡ change_code answer }
{
    match answer {
        Ok(()) => 1,
        Err(refusal) => refusal_code(refusal),
    }
}

#[unsafe(no_mangle)]
pub extern "C" fn onestep_list(
    pattern: &[u8],
    recipe: &[u8],
    lines: &mut [u8],
    values: &mut [u8],
    work: &mut [u8],
) -> i64
    ensures answer { ListedAs pattern.now recipe.now lines.old values.old
        work.old result lines.new values.new }
    ensures nine { NineAs pattern.now recipe.now lines.old values.old
        work.old result }
    ensures area { work.new ≡ cleared work.old }
{
    count_code(matcher::list(pattern, recipe, lines, values, work))
}

#[unsafe(no_mangle)]
pub extern "C" fn onestep_check(
    pattern: &[u8],
    recipe: &[u8],
    line: &[u8],
    values: &[u8],
    work: &mut [u8],
) -> i64
    ensures answer { CheckedAs pattern.now recipe.now line.now values.now
        work.old result }
    ensures area { work.new ≡ cleared work.old }
{
    check_code(rewriting::check(pattern, recipe, line, values, work))
}

#[unsafe(no_mangle)]
pub extern "C" fn onestep_sweep(
    pattern: &[u8],
    line: &[u8],
    values: &[u8],
    out: &mut [u8],
    work: &mut [u8],
) -> i64
    ensures answer { SweptAs pattern.now line.now values.now out.old work.old
        result out.new }
    ensures area { work.new ≡ cleared work.old }
{
    count_code(rewriting::sweep(pattern, line, values, out, work))
}

#[unsafe(no_mangle)]
pub extern "C" fn onestep_rewrite(
    left: &[u8],
    right: &[u8],
    recipe: &[u8],
    line: &[u8],
    values: &[u8],
    out: &mut [u8],
    work: &mut [u8],
) -> i64
    ensures answer { RewrittenAs left.now right.now recipe.now line.now
        values.now out.old work.old result out.new }
    ensures area { work.new ≡ cleared work.old }
{
    count_code(rewriting::rewrite(left, right, recipe, line, values, out, work))
}

#[unsafe(no_mangle)]
pub extern "C" fn onestep_book(
    book: &[u8],
    recipe: &[u8],
    out: &mut [u8],
    work: &mut [u8],
    pairs: &mut u64,
) -> i64
    ensures answer { BookedAs book.now recipe.now out.old work.old pairs.old result
        out.new pairs.new }
    ensures area { work.new ≡ cleared work.old }
{
    match book::apply(book, recipe, out, work) {
        Ok(new) => {
            *pairs = new.pairs as u64;
            new.records as i64
        }
        Err(refusal) => refusal_code(refusal), // the number of pairs stays
    }
}

#[unsafe(no_mangle)]
pub extern "C" fn onestep_shelf_put(
    buoy: usize,
    recipe: &[u8],
    directory: &mut [u8],
    table: &mut [u8],
) -> i64
    ensures { PutAs buoy recipe.now directory.old table.old result directory.new
        table.new }
{
    change_code(shelf::put(buoy, recipe, directory, table))
}

#[unsafe(no_mangle)]
pub extern "C" fn onestep_shelf_take_out(buoy: usize, directory: &mut [u8], table: &mut [u8]) -> i64
    ensures { TakenOutAs buoy directory.old table.old result directory.new table.new }
{
    change_code(shelf::take_out(buoy, directory, table))
}

#[unsafe(no_mangle)]
pub extern "C" fn onestep_shelf_read(
    buoy: usize,
    directory: &[u8],
    table: &[u8],
    out: &mut [u8],
) -> i64
    ensures { ReadOutAs buoy directory.now table.now out.old result out.new }
{
    count_code(shelf::read(buoy, directory, table, out))
}

#[unsafe(no_mangle)]
pub extern "C" fn onestep_shelf_count(directory: &[u8]) -> i64
    ensures { CountedAs directory.now result }
{
    count_code(shelf::count(directory))
}
