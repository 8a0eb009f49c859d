// The reduct of a pattern: redexes contracted where the argument is rigid, or where the local is only the argument of a constant.
//
// Such redexes make the search exponential, and they needn't wait for the sweep: a rigid argument never sweeps to an abstraction, and below
// a constant an abstraction meets no argument, so that the reduct has the pattern's own listing, as `matching` shows. The crate goes
// bottom-up through the parts of a table and writes the reduct of each into an array of its own. It promises that what it writes is the
// table of the reduct, and says "too long" where that of some part is above 32 records. It rests on `records` for single records and parts,
// on `shifting` for the test of an argument, and on `substitution` for the contraction.
//
// A local that is itself a head is not guarded: `@ \ @ #0 k0 \ k1` doesn't match `k1`, and its contracted form would. Nor is one below
// another local, as what is put for that may be an abstraction. Where the reduct would be longer than a pattern may be the pattern itself
// is searched, so that nothing is promised of that answer. Contracting while goals are matched would need targets for parts that stand in
// no table.

#![tactic(auto)]

mod guards;

ghost use Rattle.std.specs.Prelude.{◌≡◌, ◌≤◌, length, get_or};
ghost use Rattle.terms.specs.Table.{application_kind, abstraction_kind};
ghost use Rattle.sweeping.specs.Swept.{SweptParts};
ghost use Rattle.reducts.specs.Reduced.{pattern_bytes, Contracts, ReducesApplication, ReducibleParts, ReducesRedex};
ghost use Rattle.reducts.specs.Reduced.{Reducible, Reduces};

use records::{Kind, PATTERN_RECORDS, RECORD};

// The bytes of a pattern of 32 records, the longest reduct that is written.
pub const PATTERN_BYTES: usize = RECORD * PATTERN_RECORDS;

// Contracts the application of a head, which is an abstraction, to an argument, both reduced; gives the records, none if too many.
fn contract_redex(head: &[u8], argument: &[u8], out: &mut [u8; PATTERN_BYTES]) -> Option<usize>
    requires { SweptParts head.now argument.now × (get_or head.now 0 0 ≡ abstraction_kind) }
    ensures { Contracts head.now argument.now out.old result out.new }
{
    let body = &head[RECORD..];
    let uses = substitution::count_uses(body, 0);
    // each use is one record of the body, and all of the argument's records take its place
    let bytes = head.len() - RECORD + uses.count * (argument.len() - RECORD);
    if bytes > PATTERN_BYTES {
        return None;
    }
    substitution::substitute_into(body, 0, argument, out, 0);
    Some(bytes / RECORD)
}

// Writes the application of a head to an argument as it is; gives the records, none if they are too many.
fn join(head: &[u8], argument: &[u8], out: &mut [u8; PATTERN_BYTES]) -> Option<usize>
    requires { (length head.now ≤ pattern_bytes) × (length argument.now ≤ pattern_bytes) }
    ensures { ReducesApplication head.now argument.now out.old result out.new }
{
    let n = RECORD + head.len() + argument.len();
    if n > PATTERN_BYTES {
        return None;
    }
    records::put_record(out, 0, Kind::APPLICATION, 0);
    copying::copy_into(head, out, RECORD);
    copying::copy_into(argument, out, RECORD + head.len());
    Some(n / RECORD)
}

// Applies a head to an argument, both reduced: the redex is contracted if it is one, and the argument is rigid or the local guarded.
fn apply_reduced(head: &[u8], argument: &[u8], out: &mut [u8; PATTERN_BYTES]) -> Option<usize>
    requires { ReducibleParts head.now argument.now }
    ensures { ReducesRedex head.now argument.now out.old result out.new }
{
    if head[0] != Kind::ABSTRACTION.code {
        return join(head, argument, out);
    }
    if shifting::is_rigid(argument) {
        return contract_redex(head, argument, out);
    }
    if guards::is_guarded(records::body_of(head), 0) {
        return contract_redex(head, argument, out);
    }
    join(head, argument, out)
}

// Reduces an application: its head, its argument, and then the two together.
#[cycle(reduce)]
fn reduce_application(s: &[u8], out: &mut [u8; PATTERN_BYTES]) -> Option<usize>
    requires { Reducible s.now × (get_or s.now 0 0 ≡ application_kind) }
    ensures { Reduces s.now out.old result out.new }
{
    let mut head = [0u8; PATTERN_BYTES];
    let n = reduce(records::head_of(s), &mut head)? * RECORD;
    let mut argument = [0u8; PATTERN_BYTES];
    let m = reduce(records::argument_of(s), &mut argument)? * RECORD;
    apply_reduced(&head[0..n], &argument[0..m], out)
}

// Reduces an abstraction: its body, and then the abstraction over it.
#[cycle(reduce)]
fn reduce_abstraction(s: &[u8], out: &mut [u8; PATTERN_BYTES]) -> Option<usize>
    requires { Reducible s.now × (get_or s.now 0 0 ≡ abstraction_kind) }
    ensures { Reduces s.now out.old result out.new }
{
    let mut body = [0u8; PATTERN_BYTES];
    let n = reduce(records::body_of(s), &mut body)? * RECORD;
    if n == PATTERN_BYTES {
        return None;
    }
    records::put_record(out, 0, Kind::ABSTRACTION, 0);
    copying::copy_into(&body[0..n], out, RECORD);
    Some(n / RECORD + 1)
}

// Writes the reduct of s, the table of a pattern or of a part of one, into out from byte 0 on. Leaves are their own reducts. It
// gives the records, none if they are too many.
#[cycle(reduce)]
pub fn reduce(s: &[u8], out: &mut [u8; PATTERN_BYTES]) -> Option<usize>
    requires { Reducible s.now }
    ensures { Reduces s.now out.old result out.new }
{
    let kind = s[0];
    if kind == Kind::APPLICATION.code {
        return reduce_application(s, out);
    }
    if kind == Kind::ABSTRACTION.code {
        return reduce_abstraction(s, out);
    }
    copying::copy_into(s, out, 0);
    Some(1)
}
