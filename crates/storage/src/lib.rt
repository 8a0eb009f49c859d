// The two tables of a shelf: judged, read by buoy, and a buoy's recipe replaced and counted.
//
// The record table has the recipes in buoy order, without gaps; the directory beside it has their counts of records, one byte a buoy, and
// behind these eight counters. The crate promises, for any bytes, whether two tables are those of a shelf and whether a recipe has room,
// and, where they are, that a recipe put in a buoy's place changes no other and is counted by the counter that the caller names: all bytes
// of both tables are known afterwards. It rests on `slots` for the strings, on `counters` for the count and on `refusals` for the verdicts.
//
// A shelf has no state but these bytes, so that a program can keep it in a file and go on from there. The directory has one length for all
// that is to be kept beside the recipes: what has no use yet is zero in a new shelf, and stays as it is.

#![tactic(auto)]

ghost use Rattle.std.specs.Prelude.{◌≡◌, ◌*◌, ◌/◌, ◌≤◌, ◌<◌, length, set, get_or};
ghost use Rattle.terms.specs.Figures.{buoys, shelf_records, ceiling};
ghost use Rattle.slots.specs.Slots.{total};
ghost use Rattle.refusals.specs.Judged.{Judged};
ghost use Rattle.storage.specs.Storage.{counts_of, count_of, recipe_of, counter_number, Stored};
ghost use Rattle.storage.specs.Storage.{buoy_rows, directory_rows, record_table_rows, absent_rows, room_rows};
ghost use Rattle.storage.specs.Steps.{Directory, Shelf, Storable};

use counters::COUNTER;
use records::{BUOYS, RECORD, SHELF_RECORDS};
use refusals::Refusal;

// The bytes of a directory, and where its counters begin.
pub const DIRECTORY_BYTES: usize = 24576;

const COUNTERS_FROM: usize = BUOYS;

// A buoy's number: 18.
pub fn judge_buoy(buoy: usize) -> Result<(), Refusal>
    ensures { Judged (buoy_rows buoy) (buoy < buoys) result }
{
    if BUOYS <= buoy {
        return Err(Refusal::Buoy);
    }
    Ok(())
}

// The directory, its length and its counts of records together: 8.
#[tactic(auto, using(crate::proofs::Judges::counts_bad))]
pub fn judge_directory(directory: &[u8]) -> Result<(), Refusal>
    ensures { Judged (directory_rows directory.now) (Directory directory.now) result }
{
    if directory.len() != DIRECTORY_BYTES {
        return Err(Refusal::Tables);
    }
    if SHELF_RECORDS < slots::records_before(&directory[0..BUOYS], BUOYS) {
        return Err(Refusal::Tables);
    }
    Ok(())
}

// The record table: 8.
pub fn judge_record_table(table: &[u8]) -> Result<(), Refusal>
    ensures { Judged (record_table_rows table.now) (length table.now ≡ 4 * shelf_records) result }
{
    if table.len() != RECORD * SHELF_RECORDS {
        return Err(Refusal::Tables);
    }
    Ok(())
}

// Whether the buoy has a recipe: 18.
pub fn judge_held(buoy: usize, directory: &[u8]) -> Result<(), Refusal>
    requires { (buoy < buoys) × Directory directory.now }
    ensures { Judged (absent_rows buoy directory.now) (0 < get_or (counts_of directory.now) buoy 0) result }
{
    if directory[buoy] == 0 {
        return Err(Refusal::Buoy);
    }
    Ok(())
}

// Whether a recipe has room beside those of the other buoys: 19.
pub fn judge_room(buoy: usize, recipe: &[u8], directory: &[u8], table: &[u8]) -> Result<(), Refusal>
    requires { (buoy < buoys) × Shelf directory.now table.now }
    ensures { Judged (room_rows buoy recipe.now directory.now)
        (total (set (counts_of directory.now) buoy (length recipe.now / 4)) ≤ shelf_records) result }
{
    let n = recipe.len() / RECORD;
    if slots::has_room(&directory[0..BUOYS], table, buoy, n) {
        return Ok(());
    }
    Err(Refusal::ShelfRoom)
}

// The recipe of a buoy, as a part of the record table; no bytes if there is none.
pub fn recipe_of<'a>(buoy: usize, directory: &[u8], table: &'a [u8]) -> &'a [u8]
    requires { (buoy < buoys) × Shelf directory.now table.now }
    ensures { result.now ≡ recipe_of buoy directory.now table.now }
{
    slots::held(&directory[0..BUOYS], table, buoy)
}

// The number of a counter.
pub fn count_of(counter: usize, directory: &[u8]) -> usize
    requires { (counter < counter_number) × Directory directory.now }
    ensures { (result ≡ count_of counter directory.now) × (result ≤ ceiling) }
{
    counters::value(directory, COUNTERS_FROM + COUNTER * counter)
}

// Puts a recipe in a buoy's place, or none if it has no bytes, and counts that by the counter.
pub fn store(counter: usize, buoy: usize, recipe: &[u8], directory: &mut [u8], table: &mut [u8])
    requires { Storable counter buoy recipe.now directory.old table.old }
    ensures { Stored counter buoy recipe.now directory.old table.old directory.new
        table.new }
{
    slots::replace(&mut directory[0..BUOYS], table, buoy, recipe);
    counters::increment(directory, COUNTERS_FROM + COUNTER * counter);
}
