// A side of a rule, filled from a line and a value table: swept, set against a recipe, and swept until normal.
//
// The tables have been judged before. The crate promises the swept form of the filled side, or that some part's is too long; whether that
// form is a recipe; and the first normal form of the filled side after at least one sweep, or why none is given. It rests on `sweeping` for
// the first sweep, on `normalizing` for those behind it, on `assignments` to read the line, and on `refusals` for what the verdicts said of
// the tables.
//
// A form is made in a table of 256 records, which the caller lends or `match_recipe` has. The sweep has further ones on the stack: for each
// level of application in what is swept two of 1,024 bytes, for each abstraction one. The levels are those of a side at the first sweep, at
// most 31, and those of a swept form at the others, at most 255; `tests/stack.sh` measures what that takes.

#![tactic(auto)]

ghost use Rattle.records.specs.Checks.{Recipe};
ghost use Rattle.refusals.specs.Judged.{FilledTables};
ghost use Rattle.sides.specs.Sides.{SweptSide, Matched, NormalSide};

use normalizing::NormalFault;
use records::{MOST_SWEEPS, RECORD};
use refusals::Refusal;
use sweeping::SWEPT_BYTES;

// Sweeps a side, filled from a line and a value table.
pub fn sweep_side(
    side: &[u8],
    line: &[u8],
    values: &[u8],
    out: &mut [u8; SWEPT_BYTES],
) -> Option<usize>
    requires { FilledTables side.now line.now values.now }
    ensures { SweptSide side.now line.now values.now out.old result out.new }
{
    let a = assignments::entries_of(line);
    sweeping::sweep_filled(side, values, a, out)
}

// Whether the filled pattern sweeps to the recipe; the refusal of a form that gets too long.
pub fn match_recipe(
    pattern: &[u8],
    line: &[u8],
    values: &[u8],
    recipe: &[u8],
) -> Result<bool, Refusal>
    requires { FilledTables pattern.now line.now values.now × Recipe recipe.now }
    ensures { Matched pattern.now line.now values.now recipe.now result }
{
    let mut swept = [0u8; SWEPT_BYTES];
    let n = sweep_side(pattern, line, values, &mut swept).ok_or(Refusal::SweptForm)?;
    Ok(copying::same_bytes(&swept[0..n * RECORD], recipe))
}

// Sweeps a filled side until it is normal, at least once and 64 times at most.
pub fn normalize_side(
    side: &[u8],
    line: &[u8],
    values: &[u8],
    out: &mut [u8; SWEPT_BYTES],
) -> Result<usize, NormalFault>
    requires { FilledTables side.now line.now values.now }
    ensures { NormalSide side.now line.now values.now result out.new }
{
    let n = sweep_side(side, line, values, out).ok_or(NormalFault::TooLong)?;
    normalizing::normalize(out, n, MOST_SWEEPS - 1)
}
