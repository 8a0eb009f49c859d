// The operation book: a recipe rewritten by the first pair of closed part and rule that can be used.
//
// It judges all that it is lent, and refuses with the number of the cause that holds first in document 02's order; else `scanning` finds
// the pair, the part's new form is put in its place, and the whole is swept until normal and written. Where no rule can be used the recipe
// is written as it is. It promises its answer and the bytes it leaves for every input there is, refusals included: then the output table is
// as it was, and the work area is all zero unless its own length was wrong. What it writes is a recipe that every operation takes
// (`proofs/Recipes`). It rests on `refusals` and `rules` for the verdicts, on `scanning` for the pair and on `replacing` for the whole.
//
// The rules are judged only if there are at most 64 places, so that a table of any length is refused at once.

#![tactic(auto)]

ghost use Rattle.std.specs.Prelude.{◌≡◌, ◌/◌, ◌≤◌, length};
ghost use Rattle.terms.specs.Figures.{table_bytes, place_bytes, most_places};
ghost use Rattle.terms.specs.Term.{Term};
ghost use Rattle.terms.specs.Table.{encode};
ghost use Rattle.refusals.specs.Judged.{Judged};
ghost use Rattle.refusals.specs.Lent.{cleared};
ghost use Rattle.replacing.specs.Wholes.{FormStands};
ghost use Rattle.book.specs.Operations.{book_table_rows, places_rows, lent_for_book, Booked};
ghost use Rattle.book.specs.Steps.{BookTables, RecipeGiven, WholeGiven, BookAnswered};

use records::{MOST_PLACES, PLACE, RECIPE_RECORDS, RECORD};
use refusals::Refusal;
use replacing::WHOLE_BYTES;
use scanning::SearchEnd;
use sweeping::SWEPT_BYTES;

// What the operation reports of the new recipe: its records, and the number of pairs up to and with the one used.
#[derive(Clone, Copy)]
pub struct NewRecipe {
    pub records: usize,
    pub pairs: usize,
}

// The lengths of the tables: 8.
fn judge_lengths(book: &[u8], out: &[u8], work: &[u8]) -> Result<(), Refusal>
    ensures { Judged (book_table_rows book.now out.now work.now)
        (length work.now ≡ table_bytes) result }
{
    if 0 < book.len() % PLACE {
        return Err(Refusal::Tables);
    }
    refusals::judge_room(out, work)
}

// The number of places: 16.
fn judge_places(book: &[u8]) -> Result<(), Refusal>
    ensures { Judged (places_rows book.now) (length book.now / place_bytes ≤ most_places) result }
{
    let n = book.len() / PLACE;
    if n == 0 {
        return Err(Refusal::BookSize);
    }
    if MOST_PLACES < n {
        return Err(Refusal::BookSize);
    }
    Ok(())
}

// All that the operation is lent: 8; 16; the rules in book order, left 1, 2, 3, right 1, 2, 3; recipe 4 to 7.
fn judge_book(book: &[u8], recipe: &[u8], out: &[u8], work: &[u8]) -> Result<(), Refusal>
    ensures { Judged (lent_for_book book.now recipe.now out.now work.now)
        (BookTables book.now recipe.now work.now) result }
{
    judge_lengths(book, out, work).and(judge_places(book))?;
    rules::judge_rules(book).and(refusals::judge_recipe(recipe))
}

// Writes a new recipe, if it isn't too long and has room.
fn write_recipe(form: &[u8], pairs: usize, out: &mut [u8]) -> Result<NewRecipe, Refusal>
    ensures { (v : Term) → form.now ≡ encode v → RecipeGiven v pairs out.old result out.new }
{
    let n = form.len() / RECORD;
    if RECIPE_RECORDS < n {
        return Err(Refusal::LongRecipe);
    }
    if out.len() < form.len() {
        return Err(Refusal::Output);
    }
    copying::copy_into(form, out, 0);
    Ok(NewRecipe { records: n, pairs })
}

// Puts a form in the place of the part that begins at record k, sweeps the whole until it is normal, and writes it.
fn write_whole(
    recipe: &[u8],
    k: usize,
    form: &[u8],
    pairs: usize,
    out: &mut [u8],
) -> Result<NewRecipe, Refusal>
    requires { FormStands recipe.now k form.now }
    ensures { WholeGiven recipe.now k form.now pairs out.old result out.new }
{
    let mut whole = [0u8; WHOLE_BYTES];
    let n = replacing::normalize_whole(recipe, k, form, &mut whole)?;
    write_recipe(&whole[0..n * RECORD], pairs, out)
}

// Searches, and writes what comes of it.
fn rewrite_first(
    book: &[u8],
    recipe: &[u8],
    out: &mut [u8],
    work: &mut [u8],
) -> Result<NewRecipe, Refusal>
    requires { BookTables book.now recipe.now work.old }
    ensures { BookAnswered book.now recipe.now out.old result out.new }
{
    let mut form = [0u8; SWEPT_BYTES];
    match scanning::search(book, recipe, &mut form, work)? {
        SearchEnd::Nothing(pairs) => write_recipe(recipe, pairs, out),
        SearchEnd::Form(k, n, pairs) => write_whole(recipe, k, &form[0..n * RECORD], pairs, out),
    }
}

// Rewrites a recipe by the first pair of closed part and rule of a book that can be used; where there is none, the recipe is given back.
pub fn apply(
    book: &[u8],
    recipe: &[u8],
    out: &mut [u8],
    work: &mut [u8],
) -> Result<NewRecipe, Refusal>
    ensures answer { Booked book.now recipe.now out.old work.old result out.new }
    ensures area { work.new ≡ cleared work.old }
{
    match judge_book(book, recipe, out, work) {
        Err(refusal) => {
            refusals::clear(work);
            Err(refusal)
        }
        Ok(()) => {
            let answer = rewrite_first(book, recipe, out, work);
            refusals::clear(work);
            answer
        }
    }
}
