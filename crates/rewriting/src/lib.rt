// Operations on an assignment that is lent: check, sweep and rewrite.
//
// Each judges the tables it is lent, in the documents' order, and refuses with the number of the first cause that holds; else it fills a
// side from a line and a value table, sweeps it once, or of a rewrite's right side until it is normal, and compares or writes what comes of
// it. The crate promises each answer and the bytes that are left, for every input there is, refusals included: then the output table is as
// it was, and the work area is all zero unless its own length was wrong. What rewrite writes is a recipe but for its length
// (`proofs/Recipes`). It rests on `refusals` for the verdicts and on `sides` for the forms; it searches nothing.
//
// A form is made in a local table of 256 records and copied at the end, so that every refusal, 12, 13 and 15 included, leaves the output as
// it was without undoing anything. The work area is only made zero, after the tables were judged.

#![tactic(auto)]

ghost use Rattle.std.specs.Prelude.{◌≡◌};
ghost use Rattle.records.specs.Checks.{Recipe};
ghost use Rattle.refusals.specs.Judged.{Judged, FilledTables};
ghost use Rattle.refusals.specs.Lent.{cleared};
ghost use Rattle.rewriting.specs.Operations.{lent_for_check, lent_for_sweep, lent_for_rewrite, Checked, Swept, Rewritten};
ghost use Rattle.rewriting.specs.Steps.{FormWritten, SideSwept, SideNormalized};

use records::RECORD;
use refusals::Refusal;
use sweeping::SWEPT_BYTES;

// All that check is lent: 8; pattern 1, 2, 3; recipe 4 to 7; 11.
fn judge_check(
    pattern: &[u8],
    recipe: &[u8],
    line: &[u8],
    values: &[u8],
    work: &[u8],
) -> Result<(), Refusal>
    ensures { Judged
        (lent_for_check pattern.now recipe.now line.now values.now work.now)
        (FilledTables pattern.now line.now values.now × Recipe recipe.now) result }
{
    let tables = refusals::judge_tables(line, values, work);
    let terms = refusals::judge_pattern(pattern).and(refusals::judge_recipe(recipe));
    tables.and(terms)?;
    refusals::judge_assignment(pattern, line, values)
}

// All that sweep is lent: 8; pattern 1, 2, 3; 11.
fn judge_sweep(
    pattern: &[u8],
    line: &[u8],
    values: &[u8],
    out: &[u8],
    work: &[u8],
) -> Result<(), Refusal>
    ensures { Judged
        (lent_for_sweep pattern.now line.now values.now out.now work.now)
        (FilledTables pattern.now line.now values.now) result }
{
    let tables = refusals::judge_tables(line, values, work);
    let terms = refusals::judge_table(out, RECORD).and(refusals::judge_pattern(pattern));
    tables.and(terms)?;
    refusals::judge_assignment(pattern, line, values)
}

// All that rewrite is lent: 8; left 1, 2, 3; recipe 4 to 7; right 1, 2, 3; 11 over both sides.
fn judge_rewrite(
    left: &[u8],
    right: &[u8],
    recipe: &[u8],
    line: &[u8],
    values: &[u8],
    out: &[u8],
    work: &[u8],
) -> Result<(), Refusal>
    ensures { Judged (lent_for_rewrite left.now right.now recipe.now line.now
        values.now out.now work.now)
        ((FilledTables left.now line.now values.now
        × FilledTables right.now line.now values.now) × Recipe recipe.now) result }
{
    let tables = refusals::judge_tables(line, values, work);
    let behind = refusals::judge_recipe(recipe).and(refusals::judge_pattern(right));
    let terms = refusals::judge_table(out, RECORD).and(refusals::judge_pattern(left).and(behind));
    tables.and(terms)?;
    refusals::judge_sides(left, right, line, values)
}

// Writes a form, if the output table has room for it.
fn write_form(form: &[u8], out: &mut [u8]) -> bool
    ensures { FormWritten form.now out.old result out.new }
{
    if out.len() < form.len() {
        return false;
    }
    copying::copy_into(form, out, 0);
    true
}

// Writes the swept form of a filled side, if it has room.
fn put_swept(side: &[u8], line: &[u8], values: &[u8], out: &mut [u8]) -> Result<usize, Refusal>
    requires { FilledTables side.now line.now values.now }
    ensures { SideSwept side.now line.now values.now out.old result out.new }
{
    let mut swept = [0u8; SWEPT_BYTES];
    let n = sides::sweep_side(side, line, values, &mut swept).ok_or(Refusal::SweptForm)?;
    if write_form(&swept[0..n * RECORD], out) {
        return Ok(n);
    }
    Err(Refusal::Output)
}

// Writes the first normal form of a filled side, if it has room.
fn put_normal(side: &[u8], line: &[u8], values: &[u8], out: &mut [u8]) -> Result<usize, Refusal>
    requires { FilledTables side.now line.now values.now }
    ensures { SideNormalized side.now line.now values.now out.old result out.new }
{
    let mut table = [0u8; SWEPT_BYTES];
    let n = sides::normalize_side(side, line, values, &mut table)?;
    if !write_form(&table[0..n * RECORD], out) {
        return Err(Refusal::Output);
    }
    Ok(n)
}

// Whether the assignment in a line and a value table is a match of a pattern and a recipe.
pub fn check(
    pattern: &[u8],
    recipe: &[u8],
    line: &[u8],
    values: &[u8],
    work: &mut [u8],
) -> Result<bool, Refusal>
    ensures answer { Checked pattern.now recipe.now line.now values.now
        work.old result }
    ensures area { work.new ≡ cleared work.old }
{
    let verdict = judge_check(pattern, recipe, line, values, work);
    refusals::clear(work);
    verdict?;
    sides::match_recipe(pattern, line, values, recipe)
}

// Writes the swept form of a filled pattern.
pub fn sweep(
    pattern: &[u8],
    line: &[u8],
    values: &[u8],
    out: &mut [u8],
    work: &mut [u8],
) -> Result<usize, Refusal>
    ensures answer { Swept pattern.now line.now values.now out.old work.old result
        out.new }
    ensures area { work.new ≡ cleared work.old }
{
    let verdict = judge_sweep(pattern, line, values, out, work);
    refusals::clear(work);
    verdict?;
    put_swept(pattern, line, values, out)
}

// Writes the first normal form of a filled right side, if the assignment is a match of the left side and the recipe.
pub fn rewrite(
    left: &[u8],
    right: &[u8],
    recipe: &[u8],
    line: &[u8],
    values: &[u8],
    out: &mut [u8],
    work: &mut [u8],
) -> Result<usize, Refusal>
    ensures answer { Rewritten left.now right.now recipe.now line.now
        values.now out.old work.old result out.new }
    ensures area { work.new ≡ cleared work.old }
{
    let verdict = judge_rewrite(left, right, recipe, line, values, out, work);
    refusals::clear(work);
    verdict?;
    let is_match = sides::match_recipe(left, line, values, recipe)?;
    if !is_match {
        return Err(Refusal::NoMatch);
    }
    put_normal(right, line, values, out)
}
