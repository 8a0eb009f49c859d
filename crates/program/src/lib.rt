// The program: reads a pattern and a recipe, lists their matches with full tables, and prints the listing.
//
// A file that won't open counts as empty, and of one that is too long so much is read that the length is still refused. Two programs call
// it: `onestep`, document 01's program, on `pattern.rec` and `recipe.rec` in the folder it is run in, and `test_program` on cases whose
// outputs are compared with stored ones. It promises that it is safe and ends, and that it lends `list` a line table, a value table and a
// work area of the full length: `print_answer` asks for no less. `matcher` promises the listing, and `printing` the text of each printed
// line. It rests on these two, and on the library's files.
//
// It has room to read one record more than a table may have, which `print_files` asks for, so that `list` itself refuses a file that is too
// long, with 1 or 4. The function that runs takes the two paths, so that the cases of `test_program` are folders of one crate.

#![tactic(auto)]

ghost use Rattle.std.specs.Prelude.{◌+◌, ◌*◌, ◌≡◌, length};
ghost use Rattle.io.specs.Counts.{IsPrefixLen};
ghost use Rattle.terms.specs.Figures.{pattern_records, recipe_records, table_bytes};

use records::{PATTERN_RECORDS, RECIPE_RECORDS, RECORD, TABLE_BYTES};
use std::io::Read;
use std::rt::Files;
use std::{fs, str};

// Room for a table that is one record too long.
const PATTERN_ROOM: usize = RECORD * PATTERN_RECORDS + RECORD;

const RECIPE_ROOM: usize = RECORD * RECIPE_RECORDS + RECORD;

// Reads until the table is full, the input ends or a read fails, and answers the number of bytes read.
fn read_full<F: Read>(file: &mut F, table: &mut [u8]) -> usize
    ensures { IsPrefixLen result table.new }
{
    let mut done = 0;
    // No `for`: it goes on by as many bytes as a read gives, and std's `read_exact` doesn't tell how many came before a failure.
    while done < table.len() {
        let n = file.read(&mut table[done..]).unwrap_or(0);
        if n == 0 {
            break;
        }
        done += n;
    }
    done
}

// Reads a file, or as much as there is room for, and answers the number of bytes read. A path that isn't text names no file that opens.
fn read<R: Files>(files: &R, path: &[u8], table: &mut [u8]) -> usize
    ensures { IsPrefixLen result table.new }
{
    let Ok(name) = str::from_utf8(path) else {
        return 0;
    };
    let Ok(mut file) = fs::open(files, name) else {
        return 0;
    };
    read_full(&mut file, table)
}

// Lists into full tables and prints what came of it.
fn print_answer(pattern: &[u8], recipe: &[u8], lines: &mut [u8], values: &mut [u8], work: &mut [u8])
    requires { (length lines.old ≡ table_bytes) × (length values.old ≡ table_bytes) × (length work.old ≡ table_bytes) }
{
    let answer = matcher::list(pattern, recipe, lines, values, work);
    match answer {
        Ok(n) => printing::print_listing(n, lines, values),
        Err(c) => printing::print_refusal(refusals::number_of(c)),
    }
}

// A full table, or a work area, from a function of its own: a proof then has its length, and no literal to compute with.
fn full_table() -> [u8; TABLE_BYTES]
    ensures { table_bytes ≡ length result }
{
    [0; TABLE_BYTES]
}

// Lends full tables.
fn print_matches(pattern: &[u8], recipe: &[u8]) {
    let mut lines = full_table();
    let mut values = full_table();
    let mut work = full_table();
    print_answer(pattern, recipe, &mut lines, &mut values, &mut work);
}

// Reads the files into their rooms, lists and prints.
fn print_files<R: Files>(
    files: &R,
    pattern_path: &[u8],
    recipe_path: &[u8],
    pattern: &mut [u8],
    recipe: &mut [u8],
)
    requires { (length pattern.old ≡ 4 * (pattern_records + 1)) × (length recipe.old ≡ 4 * (recipe_records + 1)) }
{
    let n = read(files, pattern_path, pattern);
    let m = read(files, recipe_path, recipe);
    print_matches(&pattern[..n], &recipe[..m]);
}

// The whole program, on the files at two paths.
pub fn run<R: Files>(files: &R, pattern_path: &[u8], recipe_path: &[u8]) {
    let mut pattern = [0u8; PATTERN_ROOM];
    let mut recipe = [0u8; RECIPE_ROOM];
    print_files(files, pattern_path, recipe_path, &mut pattern, &mut recipe);
}
