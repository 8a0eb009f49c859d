// The fit table: which rules of a book fit which buoy, one byte for each.
//
// A row has the entries of a buoy, one for each place of the book; a column has those of a place. The crate promises, whatever table it is
// lent, that an entry which it writes is 1 exactly if the rule's left side has a match with the buoy's recipe, and else 0, and that nothing
// but that row or that column is written. So a table that was right stays right (`proofs/Afresh`). It rests on `fitting` for the question
// itself, on `rules` for the sides of a book and on `storage` for the recipes of a shelf.

#![tactic(auto)]

ghost use Rattle.std.specs.Prelude.{◌≡◌, ◌<◌, length};
ghost use Rattle.terms.specs.Figures.{table_bytes, most_places, buoys};
ghost use Rattle.records.specs.Checks.{Pattern};
ghost use Rattle.refusals.specs.Judged.{Judged};
ghost use Rattle.storage.specs.Storage.{recipe_of};
ghost use Rattle.fit_table.specs.FitTable.{fit_bytes, fit_rows, Fits, RuleFits, Marks, RowWritten, ColumnWritten};
ghost use Rattle.fit_table.specs.Steps.{RuleReady, RowReady, ColumnReady};

use records::{BUOYS, MOST_PLACES};
use refusals::Refusal;

// The bytes of a fit table.
pub const FIT_BYTES: usize = MOST_PLACES * BUOYS;

// A fit table: 8.
pub fn judge_fit_table(fit: &[u8]) -> Result<(), Refusal>
    ensures { Judged (fit_rows fit.now) (length fit.now ≡ fit_bytes) result }
{
    if fit.len() != FIT_BYTES {
        return Err(Refusal::Tables);
    }
    Ok(())
}

// The entry of the rule at a place and a recipe.
fn rule_entry(book: &[u8], place: usize, recipe: &[u8], work: &mut [u8]) -> u8
    requires { RuleReady book.now recipe.now work.old × (place < most_places) }
    ensures { Marks result (RuleFits book.now place recipe.now) }
{
    if rules::is_empty(book, place) {
        return 0;
    }
    u8::from(fitting::has_match(rules::left_of(book, place), recipe, work))
}

// The entry of a left side and what a buoy has, which may be no recipe.
fn held_entry(left: &[u8], held: &[u8], work: &mut [u8]) -> u8
    requires { Pattern left.now × (length work.old ≡ table_bytes) }
    ensures { Marks result (Fits left.now held.now) }
{
    match refusals::judge_recipe(held) {
        Err(_) => 0,
        Ok(()) => u8::from(fitting::has_match(left, held, work)),
    }
}

// Writes the row of a buoy that has a recipe.
pub fn write_row(fit: &mut [u8], buoy: usize, book: &[u8], recipe: &[u8], work: &mut [u8])
    requires { RowReady fit.old buoy book.now recipe.now work.old }
    ensures { RowWritten buoy (λ i. RuleFits book.now i recipe.now) fit.old fit.new }
{
    for i in 0..MOST_PLACES {
        fit[MOST_PLACES * buoy + i] = rule_entry(book, i, recipe, work);
    }
}

// Writes the row of a buoy that has none.
pub fn clear_row(fit: &mut [u8], buoy: usize)
    requires { (length fit.old ≡ fit_bytes) × (buoy < buoys) }
    ensures { RowWritten buoy (λ i. ⊥) fit.old fit.new }
{
    let at = MOST_PLACES * buoy;
    fit[at..at + MOST_PLACES].fill(0);
}

// Writes the column of a place that has a rule with this left side.
pub fn write_column(
    fit: &mut [u8],
    place: usize,
    left: &[u8],
    directory: &[u8],
    table: &[u8],
    work: &mut [u8],
)
    requires { ColumnReady fit.old place left.now directory.now table.now work.old }
    ensures { ColumnWritten place (λ b. Fits left.now (recipe_of b directory.now table.now))
        fit.old fit.new }
{
    for b in 0..BUOYS {
        let held = storage::recipe_of(b, directory, table);
        fit[MOST_PLACES * b + place] = held_entry(left, held, work);
    }
}

// Writes the column of an empty place.
pub fn clear_column(fit: &mut [u8], place: usize)
    requires { (length fit.old ≡ fit_bytes) × (place < most_places) }
    ensures { ColumnWritten place (λ b. ⊥) fit.old fit.new }
{
    for b in 0..BUOYS {
        fit[MOST_PLACES * b + place] = 0;
    }
}
