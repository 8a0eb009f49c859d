// The operation list: all matches of a pattern and a recipe.
//
// It judges all that it is lent, and refuses with the number of the cause that holds first in document 01's order; else `enumeration`
// writes a full listing, or says that it has no room. It promises its answer and the bytes it leaves for every input there is, refusals
// included: a refusal leaves lines and values as they were, 9 is given exactly if no earlier cause holds and every full listing has more
// lines than are lent, and the work area is all zero unless its own length was wrong. It rests on `refusals` for the verdicts and for
// clearing the work area, and on `enumeration` for the listing.
//
// What a planner has to believe is the contract of `list`, which rests on `specs/Operations`, `enumeration/specs/Written`, `refusals/specs`
// and `terms/specs` alone. The contracts of the search below cite the theory of `matching`; no promise of `list` does.

#![tactic(auto)]

ghost use Rattle.std.specs.Prelude.{◌≡◌};
ghost use Rattle.refusals.specs.Judged.{Judged};
ghost use Rattle.refusals.specs.Lent.{cleared};
ghost use Rattle.matcher.specs.Operations.{lent_for_list, Listed, NineExactly};
ghost use Rattle.enumeration.specs.Steps.{ListTables};

use records::LINE;
use refusals::Refusal;

// All that list is lent: 8; pattern 1, 2, 3; recipe 4 to 7.
fn judge_list(
    pattern: &[u8],
    recipe: &[u8],
    lines: &[u8],
    values: &[u8],
    work: &[u8],
) -> Result<(), Refusal>
    ensures { Judged
        (lent_for_list pattern.now recipe.now lines.now values.now work.now)
        (ListTables pattern.now recipe.now lines.now values.now work.now) result }
{
    let tables = refusals::judge_table(lines, LINE).and(refusals::judge_room(values, work));
    let sides = refusals::judge_pattern(pattern).and(refusals::judge_recipe(recipe));
    tables.and(sides)
}

// Lists the matches of a pattern and a recipe.
pub fn list(
    pattern: &[u8],
    recipe: &[u8],
    lines: &mut [u8],
    values: &mut [u8],
    work: &mut [u8],
) -> Result<usize, Refusal>
    ensures answer { Listed pattern.now recipe.now lines.old values.old
        work.old result lines.new values.new }
    ensures nine { NineExactly pattern.now recipe.now lines.old values.old
        work.old result }
    ensures area { work.new ≡ cleared work.old }
{
    match judge_list(pattern, recipe, lines, values, work) {
        Err(refusal) => {
            refusals::clear(work);
            Err(refusal)
        }
        Ok(()) => {
            let answer = enumeration::enumerate(pattern, recipe, lines, values, work);
            refusals::clear(work);
            answer
        }
    }
}
