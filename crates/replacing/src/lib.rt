// A term put in the place of a part of a recipe, and the whole swept until it is normal.
//
// What stands before the part, the new term's records and what stands behind the part are copied one behind another, and the whole is swept
// in the table that holds the copies. The crate promises that the copies write nothing else, and the first normal form of the whole, or why
// none is given. Its laws say that a part begins at each record, and that a closed term in the part's place gives a term again, which is
// closed and without variables if both were. It rests on `copying` for the copies, on `records` for parts and on `normalizing` for the
// sweeps.

#![tactic(auto)]

ghost use Rattle.replacing.specs.Replacing.{SpliceRoom, SpliceWritten};
ghost use Rattle.replacing.specs.Wholes.{WholeTables, WholeNormalized};

use normalizing::NormalFault;
use records::{MOST_SWEEPS, RECORD};

// The bytes of a table for the whole: 384 records, the most that `normalizing` takes. A recipe of 96 records with a form of 256 in the
// place of a part, which has at least one, has at most 351.
pub const WHOLE_BYTES: usize = RECORD * 384;

// Writes the recipe into whole, with the table `form` in the place of its bytes from `at` to `end`, and gives how many bytes that makes.
pub fn replace(recipe: &[u8], at: usize, end: usize, form: &[u8], whole: &mut [u8]) -> usize
    requires { SpliceRoom recipe.now at end form.now whole.old }
    ensures { SpliceWritten recipe.now at end form.now whole.old result whole.new }
{
    let behind = at + form.len();
    copying::copy_into(&recipe[0..at], whole, 0);
    copying::copy_into(form, whole, at);
    copying::copy_into(&recipe[end..], whole, behind);
    behind + (recipe.len() - end)
}

// Puts a form in the place of the part that begins at record k, and sweeps the whole until it is normal; a whole that is normal isn't
// swept.
pub fn normalize_whole(
    recipe: &[u8],
    k: usize,
    form: &[u8],
    whole: &mut [u8],
) -> Result<usize, NormalFault>
    requires { WholeTables recipe.now k form.now whole.old }
    ensures { WholeNormalized recipe.now k form.now result whole.new }
{
    let at = RECORD * k;
    let end = records::end_at(recipe, at);
    let bytes = replace(recipe, at, end, form, whole);
    normalizing::normalize(whole, bytes / RECORD, MOST_SWEEPS)
}
