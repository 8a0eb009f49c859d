// Sweeping a table without variables until it is normal.
//
// A swept form may still hold redexes, so it is swept again in its own table, until it is normal or as many sweeps are made as are allowed.
// The crate promises that what it leaves is the first normal form; that it says "too long" exactly if some sweep that is made finds a part
// whose swept form is above 256 records; and that it says "not reached" exactly if none does and no form that may be given is normal. It
// rests on `sweeping` for one sweep, on `records` for the test, and on `refusals` for what an operation answers where no form is given.
//
// A table of up to 384 records is taken, although a swept form has at most 256, so that a longer term without variables can be swept too.

#![tactic(auto)]

ghost use Rattle.std.specs.Prelude.{◌≡◌};
ghost use Rattle.terms.specs.Term.{Term};
ghost use Rattle.normalizing.specs.Normalized.{of_fault, Begins, Normalizable, SweptAgain, Normalized};

use assignments::Entry;
use records::{RECORD, VARIABLES};
use refusals::Refusal;
use sweeping::SWEPT_BYTES;

// Why no normal form is given: a sweep gets too long, or none is reached with all sweeps that are allowed.
#[derive(Clone, Copy, Debug, PartialEq, Eq)]
pub enum NormalFault {
    TooLong,
    NotReached,
}

impl From<NormalFault> for Refusal {
    ghost from_gives = { λ fault refusal. refusal ≡ of_fault fault };

    fn from(fault: NormalFault) -> Refusal {
        match fault {
            NormalFault::TooLong => Refusal::SweptForm,
            NormalFault::NotReached => Refusal::NoNormalForm,
        }
    }
}

// Sweeps the term of n records that the table begins with, and puts its swept form there.
fn sweep_again(table: &mut [u8], n: usize) -> Option<usize>
    requires { Normalizable table.old n }
    ensures { (t : Term) → Begins table.old n t → SweptAgain t result table.new }
{
    let mut next = [0u8; SWEPT_BYTES];
    let end = n * RECORD;
    // there is no variable, so no value is read, whatever table is lent for them
    let open = [Entry::Open; VARIABLES];
    let m = sweeping::sweep_filled(&table[0..end], &table[0..end], open, &mut next)?;
    copying::copy_into(&next[0..m * RECORD], table, 0);
    Some(m)
}

// Sweeps the term of n records that the table begins with until it is normal, `most` times at most, and leaves its normal form there. A
// term that is normal isn't swept. It calls itself, since a loop over the sweeps would ask once more behind it whether the term is normal.
pub fn normalize(table: &mut [u8], n: usize, most: usize) -> Result<usize, NormalFault>
    requires { Normalizable table.old n }
    ensures { (t : Term) → Begins table.old n t → Normalized most 0 t result table.new }
{
    let end = n * RECORD;
    if records::is_normal(&table[0..end]) {
        return Ok(n);
    }
    if most == 0 {
        return Err(NormalFault::NotReached);
    }
    let m = sweep_again(table, n).ok_or(NormalFault::TooLong)?;
    normalize(table, m, most - 1)
}
