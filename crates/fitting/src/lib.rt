// Whether a pattern has a match with a recipe.
//
// A search that stops at the first line tells, and where the heads of the two exclude a match nothing is searched. The crate promises the
// answer exactly: lines are kept nowhere, so that no room affects it. It rests on `search` for the lines, on `reducts` for the pattern's
// reduct, which is searched in its place, on `agenda` for heads that differ, and on `matching` for why there is a match exactly if there is
// a line.
//
// Two heads are read in a small part of the time that a search takes, and most rules have another head than most recipes: so they are read
// first. Before a pair of the book is listed the same is asked, so that the test of heads is public.

#![tactic(auto)]

ghost use Rattle.records.specs.Tests.{Says};
ghost use Rattle.records.specs.Checks.{Pattern, Recipe};
ghost use Rattle.fitting.specs.Fitting.{HasMatch};
ghost use Rattle.fitting.specs.Steps.{Searchable, Excluded};

use records::RECORD;
use reducts::PATTERN_BYTES;

// Whether the heads of the pattern and the recipe exclude a match.
#[tactic(auto, using(crate::proofs::Heads::excluded))]
pub fn heads_exclude(pattern: &[u8], recipe: &[u8]) -> bool
    requires { Pattern pattern.now × Recipe recipe.now }
    ensures { Excluded pattern.now recipe.now result }
{
    if shifting::is_rigid(pattern) {
        return !agenda::heads::heads_agree(pattern, recipe);
    }
    false
}

// Whether a search for a match finds a line. Its limit is 0, so that it stops there; what has no room in its tables isn't written.
fn find_line(pattern: &[u8], recipe: &[u8], work: &mut [u8]) -> bool
    requires { Searchable pattern.now recipe.now work.old }
    ensures { Says result (HasMatch pattern.now recipe.now) }
{
    let mut lines = [0u8; 1];
    let mut values = [0u8; 1];
    let found = search::collect(pattern, recipe, 0, &mut lines, &mut values, work);
    0 < found.lines
}

// Whether the pattern has a match with the recipe. What is searched is the pattern's reduct, which has the same matches, as in a listing;
// where the reduct is too long for a pattern, the pattern itself is searched.
pub fn has_match(pattern: &[u8], recipe: &[u8], work: &mut [u8]) -> bool
    requires { Searchable pattern.now recipe.now work.old }
    ensures { Says result (HasMatch pattern.now recipe.now) }
{
    if heads_exclude(pattern, recipe) {
        return false;
    }
    let mut reduct = [0u8; PATTERN_BYTES];
    let Some(n) = reducts::reduce(pattern, &mut reduct) else {
        return find_line(pattern, recipe, work);
    };
    find_line(&reduct[0..n * RECORD], recipe, work)
}
