// The lines that a search finds, in the tables of a listing.
//
// A line that is found is counted in any case, and written behind those before it if it still fits both tables; behind a line that doesn't
// fit none does. So the tables begin with the lines found, in that order, where all of them fit, and else with the first of them. The crate
// promises that of one line more, and that nothing else changes; that all lines fit the caller tells by the tally. It rests on `records`
// for the figures, on `assignments` for the entries of a line and where their values stand, and on `copying` for bytes.
//
// There is no mode that only counts and no flag: a found line is always counted, and written where it fits. Lines are stored as they are
// found in the layout of a listing, so that one definition of the layout serves these tables and those in order (`arranging`).

#![tactic(auto)]

ghost use Rattle.std.specs.Prelude.{◌≡◌, [], ◌+◌, ◌≤◌, ◌<◌, length};
ghost use Rattle.std.proofs.lemmas.List.Edits.{sets};
ghost use Rattle.terms.specs.Figures.{words};
ghost use Rattle.terms.specs.Layout.{word};
ghost use Rattle.listing.specs.Outcome.{Storable, LineStored};
ghost use Rattle.listing.specs.Writers.{count_of, entries_records, WriteEntry, EntryWritten, WriteLine, WroteLine};

use assignments::Entry;
use records::{LINE, RECORD, VARIABLES};

// How many lines were found, and how many records their values have.
#[derive(Clone, Copy)]
pub struct Tally {
    pub lines: usize,
    pub records: usize,
}

// Writes a 16-bit number at byte `at`, high byte first; nothing else changes.
pub fn put_word(out: &mut [u8], at: usize, number: usize)
    requires { (at + 2 ≤ length out.old) × (number < words) }
    ensures { out.new ≡ sets out.old at (word number []) }
{
    out[at] = (number / 256 % 256) as u8;
    out[at + 1] = (number % 256) as u8;
}

// Writes one entry of a line at byte `at` of the lines, and its value from record `first` of the values on. Answers the record behind it.
fn write_entry(
    source: &[u8],
    entry: Entry,
    lines: &mut [u8],
    at: usize,
    values: &mut [u8],
    first: usize,
) -> usize
    requires { WriteEntry source.now entry lines.old at values.old first }
    ensures { EntryWritten source.now entry lines.old at values.old first lines.new
        values.new result }
{
    let Entry::Assigned(span) = entry else {
        put_word(lines, at, 0);
        put_word(lines, at + 2, 0);
        return first;
    };
    put_word(lines, at, first);
    put_word(lines, at + 2, span.count);
    copying::copy_into(assignments::value_of(source, span), values, RECORD * first);
    first + span.count
}

// Writes the line at byte `at`, and its values from record `first` of the values on. Answers the record behind them.
pub fn write_line(
    source: &[u8],
    entries: [Entry; VARIABLES],
    lines: &mut [u8],
    at: usize,
    values: &mut [u8],
    first: usize,
) -> usize
    requires { WriteLine source.now entries 0 lines.old at values.old first }
    ensures { WroteLine source.now entries lines.old at values.old first lines.new
        values.new result }
{
    let mut next = first;
    for (i, entry) in entries.iter().enumerate() {
        next = write_entry(source, *entry, lines, at + RECORD * i, values, next);
    }
    next
}

// The records that an entry's value has.
fn count_of(entry: Entry) -> usize
    ensures { result ≡ count_of entry }
{
    let Entry::Assigned(span) = entry else {
        return 0;
    };
    span.count
}

// The records that the values of all entries have.
fn records_of(entries: [Entry; VARIABLES]) -> usize
    requires { entries_records entries ≤ words }
    ensures { result ≡ entries_records entries }
{
    let mut n = 0;
    for entry in &entries {
        n += count_of(*entry);
    }
    n
}

// A line more, whose values stand in the work area: it is counted, and written behind the lines before it if it fits both tables.
pub fn found(
    work: &[u8],
    entries: [Entry; VARIABLES],
    lines: &mut [u8],
    values: &mut [u8],
    done: Tally,
) -> Tally
    requires { Storable work.now entries lines.old values.old done }
    ensures { LineStored work.now entries lines.old values.old done lines.new
        values.new result }
{
    let at = LINE * done.lines;
    let first = done.records;
    let count = done.lines + 1;
    let records = first + records_of(entries);
    if lines.len() < LINE * count {
        return Tally {
            lines: count,
            records: records,
        };
    }
    if values.len() < RECORD * records {
        return Tally {
            lines: count,
            records: records,
        };
    }
    let end = write_line(work, entries, lines, at, values, first);
    Tally {
        lines: count,
        records: end,
    }
}
