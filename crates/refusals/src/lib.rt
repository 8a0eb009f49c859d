// Why an operation refuses, and verdicts on the tables that it is lent.
//
// A verdict says that tables are right, or which of the documents' causes holds first; an operation asks for one after the other by `?`.
// The crate judges a table's length, the work area, a pattern, a recipe and an assignment, and makes a work area zero. It promises, for
// any bytes, that a verdict is the first of its rows whose cause holds, and else what the tables are then known to hold. It rests on the
// rows of `terms`, and in code on `records` and `assignments` alone, so that an operation which searches nothing refuses by the same rows.
//
// The enum has a case for each cause that an operation can give. Those of 9, 10 and 19 are named after what there is no room for, or where.

#![tactic(auto)]

ghost use Rattle.std.specs.Prelude.{◌≡◌, ◌++◌, ◌⊎◌, ◌*◌, ◌≤◌, ◌<◌, length};
ghost use Rattle.terms.specs.Figures.{variables, table_bytes};
ghost use Rattle.terms.specs.Refusal.{OccursIn, BadTable, assignment_table_rows, pattern_rows, recipe_rows, assignment_rows};
ghost use Rattle.records.specs.Tests.{Says};
ghost use Rattle.records.specs.Checks.{Pattern, Recipe};
ghost use Rattle.refusals.specs.Judged.{number, of_pattern, of_recipe, Judged, table_row, area_row, FilledTables};
ghost use Rattle.refusals.specs.Lent.{cleared};

use records::{LINE, PatternFault, RECORD, RecipeFault, TABLE_BYTES};

// Why an operation refuses. Documents 01 and 02 number these causes.
#[derive(Clone, Copy, Debug, PartialEq, Eq)]
pub enum Refusal {
    PatternLength,
    PatternRecord,
    PatternTerm,
    RecipeLength,
    RecipeRecord,
    RecipeTerm,
    RecipeRedex,
    Tables,
    LineRoom,
    ValueRoom,
    Assignment,
    SweptForm,
    Output,
    NoMatch,
    NoNormalForm,
    BookSize,
    LongRecipe,
    Buoy,
    ShelfRoom,
}

impl From<PatternFault> for Refusal {
    ghost from_gives = { λ fault refusal. refusal ≡ of_pattern fault };

    fn from(fault: PatternFault) -> Refusal {
        match fault {
            PatternFault::BadLength => Refusal::PatternLength,
            PatternFault::BadRecord => Refusal::PatternRecord,
            PatternFault::NoTerm => Refusal::PatternTerm,
        }
    }
}

impl From<RecipeFault> for Refusal {
    ghost from_gives = { λ fault refusal. refusal ≡ of_recipe fault };

    fn from(fault: RecipeFault) -> Refusal {
        match fault {
            RecipeFault::BadLength => Refusal::RecipeLength,
            RecipeFault::BadRecord => Refusal::RecipeRecord,
            RecipeFault::NoTerm => Refusal::RecipeTerm,
            RecipeFault::NotNormal => Refusal::RecipeRedex,
        }
    }
}

// The documents' number of a refusal.
pub fn number_of(refusal: Refusal) -> u64
    ensures { result ≡ number refusal }
{
    match refusal {
        Refusal::PatternLength => 1,
        Refusal::PatternRecord => 2,
        Refusal::PatternTerm => 3,
        Refusal::RecipeLength => 4,
        Refusal::RecipeRecord => 5,
        Refusal::RecipeTerm => 6,
        Refusal::RecipeRedex => 7,
        Refusal::Tables => 8,
        Refusal::LineRoom => 9,
        Refusal::ValueRoom => 10,
        Refusal::Assignment => 11,
        Refusal::SweptForm => 12,
        Refusal::Output => 13,
        Refusal::NoMatch => 14,
        Refusal::NoNormalForm => 15,
        Refusal::BookSize => 16,
        Refusal::LongRecipe => 17,
        Refusal::Buoy => 18,
        Refusal::ShelfRoom => 19,
    }
}

// Whether a table's length is no multiple of `place` bytes, or too large.
fn is_bad_table(table: &[u8], place: usize) -> bool
    requires { 0 < place }
    ensures { Says result (BadTable place table.now) }
{
    if TABLE_BYTES < table.len() {
        return true;
    }
    table.len() % place != 0
}

// A table of places of so many bytes.
pub fn judge_table(table: &[u8], place: usize) -> Result<(), Refusal>
    requires { 0 < place }
    ensures { Judged (table_row place table.now) (length table.now ≤ table_bytes) result }
{
    if is_bad_table(table, place) {
        return Err(Refusal::Tables);
    }
    Ok(())
}

// A value table and the work area.
pub fn judge_room(values: &[u8], work: &[u8]) -> Result<(), Refusal>
    ensures { Judged (table_row 4 values.now ++ area_row work.now)
        ((length values.now ≤ table_bytes) × (length work.now ≡ table_bytes)) result }
{
    judge_table(values, RECORD)?;
    if work.len() != TABLE_BYTES {
        return Err(Refusal::Tables);
    }
    Ok(())
}

// The tables that an assignment comes in, and the work area.
pub fn judge_tables(line: &[u8], values: &[u8], work: &[u8]) -> Result<(), Refusal>
    ensures { Judged (assignment_table_rows line.now values.now work.now)
        (length line.now ≡ 4 * variables) result }
{
    if line.len() != LINE {
        return Err(Refusal::Tables);
    }
    judge_room(values, work)
}

// A pattern, or a right side.
pub fn judge_pattern(pattern: &[u8]) -> Result<(), Refusal>
    ensures { Judged (pattern_rows pattern.now) (Pattern pattern.now) result }
{
    records::check_pattern(pattern)?;
    Ok(())
}

pub fn judge_recipe(recipe: &[u8]) -> Result<(), Refusal>
    ensures { Judged (recipe_rows recipe.now) (Recipe recipe.now) result }
{
    records::check_recipe(recipe)?;
    Ok(())
}

// Whether each variable of a pattern has a value.
pub fn judge_assignment(pattern: &[u8], line: &[u8], values: &[u8]) -> Result<(), Refusal>
    requires { Pattern pattern.now × (length line.now ≡ 4 * variables) }
    ensures { Judged (assignment_rows (OccursIn pattern.now) line.now values.now)
        (FilledTables pattern.now line.now values.now) result }
{
    let a = assignments::entries_of(line);
    if assignments::all_given(pattern, values, a) {
        return Ok(());
    }
    Err(Refusal::Assignment)
}

// Whether each variable of a rule's two sides has a value.
pub fn judge_sides(left: &[u8], right: &[u8], line: &[u8], values: &[u8]) -> Result<(), Refusal>
    requires { Pattern left.now × Pattern right.now × (length line.now ≡ 4 * variables) }
    ensures { Judged
        (assignment_rows (λ i. OccursIn left.now i ⊎ OccursIn right.now i) line.now values.now)
        (FilledTables left.now line.now values.now
        × FilledTables right.now line.now values.now) result }
{
    judge_assignment(left, line, values)?;
    judge_assignment(right, line, values)
}

// Makes the work area all zero, unless its length is wrong.
pub fn clear(work: &mut [u8])
    ensures { work.new ≡ cleared work.old }
{
    if work.len() == TABLE_BYTES {
        work.fill(0);
    }
}
