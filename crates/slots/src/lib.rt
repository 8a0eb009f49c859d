// Byte strings kept by key in one table, in the order of the keys and without gaps.
//
// Beside the table there is one byte for each key: how many records its string has, 0 for none. So a table can be full to its last record,
// and what is left of it is always in one piece. The crate promises, where the counts fit the table, that it gives the string of a key,
// that it says exactly whether a string has room, and that a string put in a key's place changes no other: the table then begins with all
// strings, and behind them it is as it was. It knows nothing of what the strings mean. It rests on `copying`.

#![tactic(auto)]

ghost use Rattle.std.specs.Prelude.{◌≡◌, [], ◌*◌, ◌/◌, ◌≤◌, ◌<◌, length, take, set, get_or};
ghost use Rattle.terms.specs.Figures.{table_bytes};
ghost use Rattle.records.specs.Tests.{Says};
ghost use Rattle.slots.specs.Slots.{total, cut, replaced, Bounds, Replaceable};

use records::RECORD;

// How many records the strings of the keys below `key` have.
pub fn records_before(counts: &[u8], key: usize) -> usize
    requires { (key ≤ length counts.now) × (length counts.now ≤ table_bytes) }
    ensures { (result ≡ total (take key counts.now)) × (result ≤ 255 * key) }
{
    let mut sum = 0;
    for count in &counts[..key] {
        sum += records::wide(*count);
    }
    sum
}

// The string of a key, as a part of the table.
pub fn held<'a>(counts: &[u8], table: &'a [u8], key: usize) -> &'a [u8]
    requires { Bounds counts.now table.now × (key < length counts.now) }
    ensures { result.now ≡ get_or (cut counts.now table.now) key [] }
{
    let from = RECORD * records_before(counts, key);
    let end = from + RECORD * records::wide(counts[key]);
    &table[from..end]
}

// Whether a string of n records has room in the place of a key's.
pub fn has_room(counts: &[u8], table: &[u8], key: usize, n: usize) -> bool
    requires { Bounds counts.now table.now × (key < length counts.now) }
    ensures { Says result (4 * total (set counts.now key n) ≤ length table.now) }
{
    let all = records_before(counts, counts.len());
    let others = all - records::wide(counts[key]);
    if table.len() / RECORD - others < n {
        return false;
    }
    true
}

// Puts a string in the place of a key's; the strings behind it move. An empty one takes the key's string out.
pub fn replace(counts: &mut [u8], table: &mut [u8], key: usize, string: &[u8])
    requires { Replaceable counts.old table.old key string.now }
    ensures count { counts.new ≡ set counts.old key (length string.now / 4) }
    ensures strings { table.new ≡ replaced counts.old table.old key string.now }
{
    let from = RECORD * records_before(counts, key);
    let behind = from + RECORD * records::wide(counts[key]);
    let end = RECORD * records_before(counts, counts.len());
    copying::move_bytes(table, behind, end - behind, from + string.len());
    copying::copy_into(string, table, from);
    counts[key] = (string.len() / RECORD % 256) as u8;
}
