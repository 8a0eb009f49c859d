// Counters of 32 bits in a table, high byte first, which stay at the highest number that they hold.
//
// The crate promises what a counter's number is, and that adding one to it changes its four bytes alone. It rests on `records` for the
// numbers of two bytes.

#![tactic(auto)]

ghost use Rattle.std.specs.Prelude.{◌≡◌, ◌+◌, ◌≤◌, length};
ghost use Rattle.std.proofs.lemmas.List.Edits.{sets};
ghost use Rattle.terms.specs.Figures.{ceiling};
ghost use Rattle.counters.specs.Counters.{count_at, counter_bytes, raised};

use records::CEILING;

// The bytes of a counter.
pub const COUNTER: usize = 4;

// The number of the counter at byte `at`.
pub fn value(table: &[u8], at: usize) -> usize
    requires { at + 4 ≤ length table.now }
    ensures { (result ≡ count_at table.now at) × (result ≤ ceiling) }
{
    records::word_at(table, at) * 65536 + records::word_at(table, at + 2)
}

// Gives the counter at byte `at` a number.
fn put(table: &mut [u8], at: usize, n: usize)
    requires { (at + 4 ≤ length table.old) × (n ≤ ceiling) }
    ensures { table.new ≡ sets table.old at (counter_bytes n) }
{
    table[at] = (n / 16777216 % 256) as u8;
    table[at + 1] = (n / 65536 % 256) as u8;
    table[at + 2] = (n / 256 % 256) as u8;
    table[at + 3] = (n % 256) as u8;
}

// One more, up to the highest number.
fn raise(n: usize) -> usize
    requires { n ≤ ceiling }
    ensures { result ≡ raised n }
{
    (n + 1).min(CEILING)
}

// Adds one to the counter at byte `at`, unless it is at its highest number.
pub fn increment(table: &mut [u8], at: usize)
    requires { at + 4 ≤ length table.old }
    ensures { table.new ≡ sets table.old at (counter_bytes (raised (count_at table.old at))) }
{
    let n = value(table, at);
    put(table, at, raise(n));
}
