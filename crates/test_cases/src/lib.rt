// Random patterns, terms for their variables, and recipes: the cases of the comparison, drawn from a seed.
//
// A recipe is the swept form of a filling of the pattern, a term of the enumeration, or any closed term. It promises that it is safe and
// ends, and that a recipe's length is within its room. It rests on `rewriting` for the swept forms, on `test_draw`, which draws terms, on
// `test_pool`, which has those of the enumeration, and on `test_matches`, which makes assignments.

#![tactic(auto)]

ghost use Rattle.std.specs.Prelude.{IfSome};
ghost use Rattle.io.specs.Counts.{IsPrefixLen};

use notation::within;
use records::{RECIPE_RECORDS, RECORD, TABLE_BYTES, VARIABLES};
use test_draw::generate::{Shape, put_term};
use test_draw::random::Random;
use test_matches::{assign, copy_entry, power};
use test_pool::Terms;
use test_pool::writer::Writer;
use test_scan::scan::variables;

// Room for the entries of the enumerated terms.
pub const ENTRIES: usize = 4096;

// Room for a pattern or a recipe.
pub const SHORT: usize = RECORD * RECIPE_RECORDS;

// Room for a random recipe: of a longer one, a random pattern with all variables can have more lines than there is room for.
pub const RANDOM_RECIPE: usize = 48;

// The most assignments of a random case.
const RANDOM_ASSIGNMENTS: usize = 256;

// Terms of up to three and of up to four records. Patterns with two variables or more have terms that are drawn from these.
const THREE_RECORDS: usize = 21;

const FOUR_RECORDS: usize = 52;

// The most assignments of an example.
const EXAMPLE_ASSIGNMENTS: usize = 3000;

// The most terms such that there are no more assignments of the variables than allowed; at least one.
pub fn terms_for(variables: usize, terms: usize, allowed: usize) -> usize {
    (1..terms)
        .find(|n| allowed < power(*n + 1, variables))
        .unwrap_or(terms.max(1))
}

// The i-th term for a pattern with so many variables: of all, if it has one, or else a small one that is drawn.
fn choice(i: usize, variables: usize, random: &mut Random) -> usize {
    match variables {
        0 | 1 => i,
        2..=4 => random.draw(FOUR_RECORDS),
        _ => random.draw(THREE_RECORDS),
    }
}

// The swept form of the pattern by a line; none if there is no room for it.
fn sweep(pattern: &[u8], line: &[u8], values: &[u8], out: &mut [u8]) -> Option<usize> {
    let mut work = io::large_buffer();
    let n = rewriting::sweep(pattern, line, values, out, &mut work).ok()?;
    Some(n % TABLE_BYTES * RECORD)
}

// The swept form of a random filling of the pattern; none if there is no room for it.
fn put_swept(pattern: &[u8], terms: Terms<'_>, random: &mut Random, out: &mut [u8]) -> Option<usize>
    ensures { IfSome result (λ n. IsPrefixLen n out.new) }
{
    let number = random.draw(power(terms.count(), variables(pattern, 1)));
    let line = assign(pattern, terms.entries, number);
    let end = sweep(pattern, &line, terms.values, out)?;
    Some(within(end, out))
}

// A term of the enumeration.
fn put_any(all: Terms<'_>, random: &mut Random, out: &mut [u8]) -> usize
    ensures { IsPrefixLen result out.new }
{
    let mut writer = Writer::behind(0, out);
    writer.put_bytes(all.get(random.draw(all.count())));
    let end = writer.at;
    within(end, out)
}

// Any closed term, though perhaps not a normal one.
fn put_ground(random: &mut Random, out: &mut [u8]) -> usize
    ensures { IsPrefixLen result out.new }
{
    let size = 1 + random.draw(7);
    within(put_term(Shape::Ground, size, 0, random, out), out)
}

// A recipe: the swept form of a filling of the pattern, if it is short, a term of the enumeration, or any closed term.
pub fn put_recipe(
    pattern: &[u8],
    terms: Terms<'_>,
    all: Terms<'_>,
    random: &mut Random,
    out: &mut [u8],
) -> usize
    ensures { IsPrefixLen result out.new }
{
    match random.draw(6) {
        0..=2 => match put_swept(pattern, terms, random, out) {
            Some(end) => end,
            None => put_any(all, random, out),
        },
        5 => put_ground(random, out),
        _ => put_any(all, random, out),
    }
}

fn size(shape: Shape, random: &mut Random) -> usize {
    if shape == Shape::All {
        // as many variables as there are have one application fewer
        return 2 * VARIABLES + 1 + random.draw(5);
    }
    3 + random.draw(8)
}

pub fn draw_pattern<'a>(shape: Shape, random: &mut Random, room: &'a mut [u8]) -> &'a mut [u8] {
    let next = random.draw(VARIABLES);
    let records = size(shape, random);
    let end = within(put_term(shape, records, next, random, room), room);
    &mut room[..end]
}

// The entries of terms for the pattern's variables.
pub fn draw_terms<'a>(
    pattern: &[u8],
    all: Terms<'a>,
    random: &mut Random,
    room: &'a mut [u8],
) -> Terms<'a> {
    let v = variables(pattern, 1);
    let n = terms_for(v, all.count(), RANDOM_ASSIGNMENTS);
    for i in 0..n {
        copy_entry(all.entries, choice(i, v, random), room, i);
    }
    let chosen = Terms {
        entries: room,
        values: all.values,
    };
    chosen.first(n)
}

// As many terms as there can be of an example's variables.
pub fn example_terms<'a>(pattern: &[u8], all: Terms<'a>) -> Terms<'a> {
    let n = terms_for(variables(pattern, 1), all.count(), EXAMPLE_ASSIGNMENTS);
    all.first(n)
}
