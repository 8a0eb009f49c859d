// The sweep of a filled pattern.
//
// It goes bottom-up through the parts of a table. The swept form of each part is written into an array of its own, and a redex is
// contracted once, its size being known before anything is written. The crate promises that what it writes is the swept form of the pattern
// with the assigned values filled in, and that it says "too long" exactly if the swept form of some part is above 256 records, also where
// that part is then dropped. It rests on `records` for single records and parts, on `substitution` for the contraction of a redex, and
// on `assignments` for the entries.

#![tactic(auto)]

ghost use Rattle.std.specs.Prelude.{◌≡◌, not, ◌&&◌, get_or};
ghost use Rattle.terms.specs.Term.{Term, is_eta, is_abstraction};
ghost use Rattle.terms.specs.Table.{encode, application_kind, abstraction_kind};
ghost use Rattle.terms.specs.Sweep.{head_of};
ghost use Rattle.assignments.specs.Entries.{Given};
ghost use Rattle.sweeping.specs.Swept.{WrittenForm, SweptParts, ContractsApplication, SweptBody, ContractsAbstraction, HasValue};
ghost use Rattle.sweeping.specs.Swept.{Sweepable, Fillable, WritesSwept};

use assignments::Entry;
use records::{Kind, RECORD, SWEPT_RECORDS, VARIABLES};

// The bytes of the longest swept form that is written.
pub const SWEPT_BYTES: usize = RECORD * SWEPT_RECORDS;

// Contracts the application of a head, which is an abstraction, to an argument, both swept; gives the records, none if they are too many.
fn contract_redex(head: &[u8], argument: &[u8], out: &mut [u8; SWEPT_BYTES]) -> Option<usize>
    requires { SweptParts head.now argument.now × (get_or head.now 0 0 ≡ abstraction_kind) }
    ensures { ContractsApplication head.now argument.now out.old result out.new }
{
    let body = &head[RECORD..];
    let uses = substitution::count_uses(body, 0);
    // each use is one record of the body, and all of the argument's records take its place
    let bytes = head.len() - RECORD + uses.count * (argument.len() - RECORD);
    if bytes > SWEPT_BYTES {
        return None;
    }
    substitution::substitute_into(body, 0, argument, out, 0);
    Some(bytes / RECORD)
}

// Contracts the application of a head to an argument, both swept; gives the records, none if they are too many.
pub fn contract_application(
    head: &[u8],
    argument: &[u8],
    out: &mut [u8; SWEPT_BYTES],
) -> Option<usize>
    requires { SweptParts head.now argument.now }
    ensures { ContractsApplication head.now argument.now out.old result out.new }
{
    if head[0] == Kind::ABSTRACTION.code {
        return contract_redex(head, argument, out);
    }
    let n = RECORD + head.len() + argument.len();
    if n > SWEPT_BYTES {
        return None;
    }
    records::put_record(out, 0, Kind::APPLICATION, 0);
    copying::copy_into(head, out, RECORD);
    copying::copy_into(argument, out, RECORD + head.len());
    Some(n / RECORD)
}

// Whether the abstraction over the body contracts: the body is `M #0`, and M doesn't use that local and isn't itself an abstraction.
fn contracts(body: &[u8]) -> bool
    requires { SweptBody body.now }
    ensures { (t : Term) → body.now ≡ encode t → result ≡ (is_eta t && not (is_abstraction (head_of t))) }
{
    if body[0] != Kind::APPLICATION.code {
        return false;
    }
    if body[RECORD] == Kind::ABSTRACTION.code {
        return false;
    }
    let uses = substitution::count_uses(&body[RECORD..], 0);
    let argument = &body[RECORD + uses.length..];
    if argument[0] != Kind::LOCAL.code {
        return false;
    }
    if records::number_at(argument, 0) != 0 {
        return false;
    }
    uses.count == 0
}

// Contracts the abstraction over a body, which is swept; gives the records, none if they are too many.
pub fn contract_abstraction(body: &[u8], out: &mut [u8; SWEPT_BYTES]) -> Option<usize>
    requires { SweptBody body.now }
    ensures { ContractsAbstraction body.now out.old result out.new }
{
    if contracts(body) {
        // M doesn't use the local, so nothing is put for it, whatever is given here: M moves out
        let m = substitution::substitute_into(&body[RECORD..], 0, body, out, 0);
        return Some(m.end / RECORD);
    }
    let n = RECORD + body.len();
    if n > SWEPT_BYTES {
        return None;
    }
    records::put_record(out, 0, Kind::ABSTRACTION, 0);
    copying::copy_into(body, out, RECORD);
    Some(n / RECORD)
}

// Writes the value of a variable, which is normal and so its own swept form.
fn write_value(
    variable: usize,
    values: &[u8],
    entries: [Entry; VARIABLES],
    out: &mut [u8; SWEPT_BYTES],
) -> Option<usize>
    requires { HasValue values.now entries variable }
    ensures { (v : Term) → Given values.now entries variable v
        → WrittenForm v out.old result out.new }
{
    let Entry::Assigned(span) = entries[variable] else {
        // never so: a variable that occurs is assigned
        return None;
    };
    copying::copy_into(assignments::value_of(values, span), out, 0);
    Some(span.count)
}

// Sweeps an application: its head, its argument, and then the two together.
#[cycle(sweep)]
fn sweep_application(
    s: &[u8],
    values: &[u8],
    entries: [Entry; VARIABLES],
    out: &mut [u8; SWEPT_BYTES],
) -> Option<usize>
    requires { Sweepable s.now values.now entries × (get_or s.now 0 0 ≡ application_kind) }
    ensures { WritesSwept s.now values.now entries out.old result out.new }
{
    let mut head = [0u8; SWEPT_BYTES];
    let n = sweep_part(records::head_of(s), values, entries, &mut head)? * RECORD;
    let mut argument = [0u8; SWEPT_BYTES];
    let m = sweep_part(records::argument_of(s), values, entries, &mut argument)? * RECORD;
    contract_application(&head[0..n], &argument[0..m], out)
}

// Sweeps an abstraction: its body, and then the abstraction over it.
#[cycle(sweep)]
fn sweep_abstraction(
    s: &[u8],
    values: &[u8],
    entries: [Entry; VARIABLES],
    out: &mut [u8; SWEPT_BYTES],
) -> Option<usize>
    requires { Sweepable s.now values.now entries × (get_or s.now 0 0 ≡ abstraction_kind) }
    ensures { WritesSwept s.now values.now entries out.old result out.new }
{
    let mut body = [0u8; SWEPT_BYTES];
    let n = sweep_part(records::body_of(s), values, entries, &mut body)? * RECORD;
    contract_abstraction(&body[0..n], out)
}

// Sweeps a part of the pattern by its kind. Constants and locals sweep to themselves. Abstractions come first: compiled in this order, the
// tables of `sweep_application` are not in this function's frame, which halves the stack that a deep term takes.
#[cycle(sweep)]
fn sweep_part(
    s: &[u8],
    values: &[u8],
    entries: [Entry; VARIABLES],
    out: &mut [u8; SWEPT_BYTES],
) -> Option<usize>
    requires { Sweepable s.now values.now entries }
    ensures { WritesSwept s.now values.now entries out.old result out.new }
{
    let kind = s[0];
    if kind == Kind::ABSTRACTION.code {
        return sweep_abstraction(s, values, entries, out);
    }
    if kind == Kind::APPLICATION.code {
        return sweep_application(s, values, entries, out);
    }
    if kind == Kind::VARIABLE.code {
        return write_value(records::number_at(s, 0), values, entries, out);
    }
    copying::copy_into(s, out, 0);
    Some(1)
}

// Writes the swept form of the pattern s, filled with the values that the entries have in the value table, into out from byte 0 on.
pub fn sweep_filled(
    s: &[u8],
    values: &[u8],
    entries: [Entry; VARIABLES],
    out: &mut [u8; SWEPT_BYTES],
) -> Option<usize>
    requires { Fillable s.now values.now entries }
    ensures { WritesSwept s.now values.now entries out.old result out.new }
{
    sweep_part(s, values, entries, out)
}
