// The operations put, take-out, read and count: a shelf for two hundred recipes.
//
// A shelf is two tables that are lent to each call, the records and the directory. Each operation judges all that it is lent, and refuses
// with the number of the cause that holds first in document 02's order. It promises its answer and all bytes that it leaves for every input
// there is, refusals included: then every table is as it was. What that comes to over any calls from a new, empty shelf is the law of
// `history`, which speaks of calls and answers alone. It rests on `storage` for the two tables and on `refusals` for the verdicts.

#![tactic(auto)]

ghost use Rattle.refusals.specs.Judged.{Judged};
ghost use Rattle.shelf.specs.Operations.{put_rows, take_out_rows, Put, TakenOut, ReadOut, Counted};
ghost use Rattle.shelf.specs.Steps.{Puttable, Kept};

use records::RECORD;
use refusals::Refusal;

// The counter of all puts and take-outs.
const CHANGES: usize = 0;

// All that put is lent: 18; 8; 4 to 7; 19.
fn judge_put(buoy: usize, recipe: &[u8], directory: &[u8], table: &[u8]) -> Result<(), Refusal>
    ensures { Judged (put_rows buoy recipe.now directory.now table.now)
        (Puttable buoy recipe.now directory.now table.now) result }
{
    storage::judge_buoy(buoy)?;
    storage::judge_directory(directory)?;
    storage::judge_record_table(table)?;
    refusals::judge_recipe(recipe)?;
    storage::judge_room(buoy, recipe, directory, table)
}

// A buoy that has a recipe, and the shelf: 18 by its number; 8 of the directory; 18 without a recipe; 8 of the record table.
fn judge_kept(buoy: usize, directory: &[u8], table: &[u8]) -> Result<(), Refusal>
    ensures { Judged (take_out_rows buoy directory.now table.now)
        (Kept buoy directory.now table.now) result }
{
    storage::judge_buoy(buoy)?;
    storage::judge_directory(directory)?;
    storage::judge_held(buoy, directory)?;
    storage::judge_record_table(table)
}

// Puts a recipe on the shelf, in the place of what the buoy had. Document 02: "an operation with nothing to count answers yes".
pub fn put(
    buoy: usize,
    recipe: &[u8],
    directory: &mut [u8],
    table: &mut [u8],
) -> Result<(), Refusal>
    ensures { Put buoy recipe.now directory.old table.old result directory.new
        table.new }
{
    judge_put(buoy, recipe, directory, table)?;
    storage::store(CHANGES, buoy, recipe, directory, table);
    Ok(())
}

// Takes a buoy's recipe out.
pub fn take_out(buoy: usize, directory: &mut [u8], table: &mut [u8]) -> Result<(), Refusal>
    ensures { TakenOut buoy directory.old table.old result directory.new table.new }
{
    judge_kept(buoy, directory, table)?;
    let nothing = [0u8; 1];
    storage::store(CHANGES, buoy, &nothing[0..0], directory, table);
    Ok(())
}

// Writes a buoy's recipe.
pub fn read(buoy: usize, directory: &[u8], table: &[u8], out: &mut [u8]) -> Result<usize, Refusal>
    ensures { ReadOut buoy directory.now table.now out.old result out.new }
{
    judge_kept(buoy, directory, table)?;
    refusals::judge_table(out, RECORD)?;
    let recipe = storage::recipe_of(buoy, directory, table);
    if out.len() < recipe.len() {
        return Err(Refusal::Output);
    }
    copying::copy_into(recipe, out, 0);
    Ok(recipe.len() / RECORD)
}

// How many puts and take-outs were done.
pub fn count(directory: &[u8]) -> Result<usize, Refusal>
    ensures { Counted directory.now result }
{
    storage::judge_directory(directory)?;
    Ok(storage::count_of(CHANGES, directory))
}
