// The pairs of closed part and rule, tried in order up to the first that ends the search.
//
// The closed parts of a recipe are taken in record order, and each is tried with the rules in book order. The search goes on behind a pair
// that is passed over, and ends with the first whose form is to stand in the part's place, or that is refused. The crate promises which
// pair that is and how many there were up to it, or that there is none. It rests on `rules` for the sides of a rule and for the order of
// the pairs, and on `attempts` for one pair.
//
// A listing needs tables, which are made once for all pairs; each listing overwrites those before it. They are given back before the form
// is put into the recipe, so that the sweep of the whole has the stack for itself.

#![tactic(auto)]

ghost use Rattle.std.specs.Prelude.{◌≡◌, ◌*◌, ◌/◌, ◌≤◌, ◌<◌, length};
ghost use Rattle.terms.specs.Figures.{recipe_records, table_bytes, place_bytes, most_places};
ghost use Rattle.terms.specs.Term.{Term};
ghost use Rattle.terms.specs.Table.{encode};
ghost use Rattle.records.specs.Checks.{Recipe};
ghost use Rattle.rules.specs.Rules.{left_table, right_table, places};
ghost use Rattle.rules.specs.Steps.{Rules};
ghost use Rattle.attempts.specs.Pairs.{Tried};
ghost use Rattle.attempts.specs.Steps.{PairAnswered};
ghost use Rattle.scanning.specs.Steps.{RuleTables, RuleScan, PartScan, Sought};

use records::{PLACE, RECORD, TABLE_BYTES};
use refusals::Refusal;
use sweeping::SWEPT_BYTES;

// How trying the rules on one part ends: all are passed over, or a form of so many records stands for the part. The last number is that of
// the pairs up to there.
#[derive(Clone, Copy)]
enum Scan {
    PassedOver(usize),
    Form(usize, usize),
}

// How the search ends: with nothing to use, or with a form for the part that begins at a record (that record, the form's records). The last
// number is that of the pairs up to there.
#[derive(Clone, Copy)]
pub enum SearchEnd {
    Nothing(usize),
    Form(usize, usize, usize),
}

// Tries the rule at place i on a part.
fn try_place(
    book: &[u8],
    i: usize,
    part: &[u8],
    lines: &mut [u8],
    values: &mut [u8],
    form: &mut [u8; SWEPT_BYTES],
    work: &mut [u8],
) -> Result<Option<usize>, Refusal>
    requires { RuleTables book.now lines.old values.old work.old × (i < length book.now / place_bytes) × Recipe part.now }
    ensures { (t : Term) → part.now ≡ encode t
        → PairAnswered (Tried (left_table book.now i) (right_table book.now i) t) result form.new }
{
    let left = rules::left_of(book, i);
    let right = rules::right_of(book, i);
    attempts::try_rule(left, right, part, lines, values, form, work)
}

// Tries the rules on a part, in book order.
fn try_rules(
    book: &[u8],
    part: &[u8],
    pairs: usize,
    lines: &mut [u8],
    values: &mut [u8],
    form: &mut [u8; SWEPT_BYTES],
    work: &mut [u8],
) -> Result<Scan, Refusal>
    requires { RuleTables book.now lines.old values.old work.old × Recipe part.now × (pairs ≤ most_places * recipe_records) }
    ensures { (t : Term) → part.now ≡ encode t → RuleScan book.now t (places book.now) pairs result form.new }
{
    let places = book.len() / PLACE;
    for i in 0..places {
        let count = pairs + i + 1;
        if let Some(n) = try_place(book, i, part, lines, values, form, work)? {
            return Ok(Scan::Form(n, count));
        }
    }
    Ok(Scan::PassedOver(pairs + places))
}

// Tries all rules on the part that begins at record k, if it is closed.
fn try_part(
    book: &[u8],
    recipe: &[u8],
    k: usize,
    pairs: usize,
    lines: &mut [u8],
    values: &mut [u8],
    form: &mut [u8; SWEPT_BYTES],
    work: &mut [u8],
) -> Result<Scan, Refusal>
    requires { RuleTables book.now lines.old values.old work.old × Recipe recipe.now × (4 * k < length recipe.now)
        × (pairs ≤ most_places * k) }
    ensures { PartScan book.now recipe.now k pairs result form.new }
{
    let at = RECORD * k;
    let end = records::end_at(recipe, at);
    let part = &recipe[at..end];
    if records::is_closed(part, 0) {
        return try_rules(book, part, pairs, lines, values, form, work);
    }
    Ok(Scan::PassedOver(pairs))
}

// Tries the closed parts of a recipe, in record order.
fn search_parts(
    book: &[u8],
    recipe: &[u8],
    lines: &mut [u8],
    values: &mut [u8],
    form: &mut [u8; SWEPT_BYTES],
    work: &mut [u8],
) -> Result<SearchEnd, Refusal>
    requires { RuleTables book.now lines.old values.old work.old × Recipe recipe.now }
    ensures { Sought book.now recipe.now 0 (length recipe.now / 4) 0 result form.new }
{
    let mut pairs = 0;
    for k in 0..recipe.len() / RECORD {
        match try_part(book, recipe, k, pairs, lines, values, form, work)? {
            Scan::Form(n, used) => return Ok(SearchEnd::Form(k, n, used)),
            Scan::PassedOver(passed) => pairs = passed,
        }
    }
    Ok(SearchEnd::Nothing(pairs))
}

// A table for the listings, from a function that promises its length, so that no proof computes with so many bytes.
fn full_table() -> [u8; TABLE_BYTES]
    ensures { length result ≡ table_bytes }
{
    [0u8; TABLE_BYTES]
}

// Searches the pairs of a recipe's closed parts and a book's rules.
pub fn search(
    book: &[u8],
    recipe: &[u8],
    form: &mut [u8; SWEPT_BYTES],
    work: &mut [u8],
) -> Result<SearchEnd, Refusal>
    requires { Rules book.now × (length book.now / place_bytes ≤ most_places) × Recipe recipe.now
        × (length work.old ≡ table_bytes) }
    ensures { Sought book.now recipe.now 0 (length recipe.now / 4) 0 result form.new }
{
    let mut lines = full_table();
    let mut values = full_table();
    search_parts(book, recipe, &mut lines, &mut values, form, work)
}
