// The skeleton of a part of a pattern: what is known of its swept form while some variables are open.
//
// The part is swept as if each open variable were a hole: what a hole is applied to is lost in it, and an abstraction over a body that may
// or may not contract is a hole too, as is a form above 256 records. Whatever the open variables are assigned, the swept part is the
// skeleton with some term in place of each hole, a closed one where the part that the hole stands for is closed; so a target that doesn't
// fit the skeleton is never met, and a skeleton without a hole is the swept part itself. The crate writes skeletons, a hole as a variable's
// record, looks for holes in them, applies them, and compares them with terms. It promises that the swept part fits what it writes. It
// rests on `matching` for the laws of skeletons, on `sweeping` for single contractions, on `assignments` for values, on `heights` for what
// tells that a term is closed, and on `instances` for the answer of a walk over two parts.
//
// A hole takes in whatever isn't certain, so that nothing has to be promised of how much a skeleton shows, only that every swept form fits
// it. A hole for a part without loose locals takes closed terms alone, since values bring in no loose local: such a term is never the local
// that an abstraction over it binds, so that the abstraction is sure not to contract. Holes of both kinds are variables' records, told
// apart by their numbers.

#![tactic(auto)]

ghost use Rattle.std.specs.Prelude.{◌≡◌, List, ℕ, ◌<◌, ◌≤◌, length, get_or};
ghost use Rattle.std.proofs.lemmas.List.Edits.{sets};
ghost use Rattle.terms.specs.Figures.{numbers, table_bytes};
ghost use Rattle.terms.specs.Term.{var};
ghost use Rattle.terms.specs.Table.{encode, application_kind, abstraction_kind, variable_kind};
ghost use Rattle.matching.specs.Skeletons.{is_unsure};
ghost use Rattle.records.specs.Parts.{Tree, Whole};
ghost use Rattle.records.specs.Tests.{Tells, Equals, Walked};
ghost use Rattle.sweeping.specs.Swept.{SweptParts, SweptBody};
ghost use Rattle.skeletons.specs.Skeleton.{SkeletonInput, WritesSkeleton, SkeletonComparable, MayBe, SkeletonApplicable, MayBuild};
ghost use Rattle.skeletons.specs.Contracted.{WritesApplication, WritesAbstraction, Exact, Known, Entered};
ghost use Rattle.skeletons.specs.Compared.{SkeletonCompared};

use assignments::Entry;
use instances::Places;
use records::{Kind, RECORD, VARIABLES};
use sweeping::SWEPT_BYTES;

// The number of a hole that any term may stand in. Holes are numbers and no enum, since they are those of variables in records.
const ANY: usize = 0;

// The number of a hole that a closed term stands in.
const CLOSED: usize = 1;

// Writes a hole, and gives its number of records.
fn hole(number: usize, out: &mut [u8; SWEPT_BYTES]) -> usize
    requires { number < numbers }
    ensures { (result ≡ 1) × (out.new ≡ sets out.old 0 (encode (var number))) }
{
    records::put_record(out, 0, Kind::VARIABLE, number);
    1
}

// Writes the hole for the part s, of whose swept form no more is known than that values bring in no loose local.
fn hole_for(s: &[u8], out: &mut [u8; SWEPT_BYTES]) -> usize
    requires { Tree s.now × (length s.now ≤ table_bytes) }
    ensures { (values : List ℕ) (a : List Entry) → WritesSkeleton s.now values a out.old result
        out.new }
{
    if records::is_closed(s, 0) {
        return hole(CLOSED, out);
    }
    hole(ANY, out)
}

// Writes the skeleton of the application of a head, which is no hole, to an argument, both skeletons.
fn apply_skeleton(head: &[u8], argument: &[u8], out: &mut [u8; SWEPT_BYTES]) -> usize
    requires { SweptParts head.now argument.now × ¬ (get_or head.now 0 0 ≡ variable_kind) }
    ensures { WritesApplication head.now argument.now out.old result out.new }
{
    match sweeping::contract_application(head, argument, out) {
        Some(n) => n,
        None => hole(ANY, out),
    }
}

// Walks over the part that s begins with if it has no hole.
fn exact_part(s: &[u8]) -> Option<usize>
    requires { Whole s.now 0 × (length s.now ≤ table_bytes) }
    ensures { Walked s.now 0 Exact result }
{
    let kind = s[0];
    if kind == Kind::APPLICATION.code {
        let next = RECORD + exact_part(&s[RECORD..])?;
        return Some(next + exact_part(&s[next..])?);
    }
    if kind == Kind::ABSTRACTION.code {
        return Some(RECORD + exact_part(&s[RECORD..])?);
    }
    if kind == Kind::VARIABLE.code {
        return None;
    }
    Some(RECORD)
}

// Whether the skeleton c has no hole, so that whatever fits it is c itself.
pub fn is_exact(c: &[u8]) -> bool
    requires { Tree c.now × (length c.now ≤ table_bytes) }
    ensures { Tells c.now Exact result }
{
    exact_part(c).is_some()
}

// Whether the abstraction over what the skeleton b stands for may contract or not: b is a hole for any term, an application to such a hole,
// or an application to the innermost local whose head has a hole, in which that local may be used.
fn is_unsure(body: &[u8]) -> bool
    requires { Tree body.now × (length body.now ≤ table_bytes) }
    ensures { Equals body.now is_unsure result }
{
    let kind = body[0];
    if kind == Kind::VARIABLE.code {
        return records::number_at(body, 0) == ANY;
    }
    if kind != Kind::APPLICATION.code {
        return false;
    }
    let argument = records::argument_of(body);
    if argument[0] == Kind::VARIABLE.code {
        return records::number_at(argument, 0) == ANY;
    }
    if argument[0] != Kind::LOCAL.code {
        return false;
    }
    if records::number_at(argument, 0) != 0 {
        return false;
    }
    exact_part(&body[RECORD..]).is_none()
}

// Writes the skeleton of the abstraction over b, which is a skeleton.
fn abstract_over(body: &[u8], out: &mut [u8; SWEPT_BYTES]) -> usize
    requires { SweptBody body.now }
    ensures { WritesAbstraction body.now out.old result out.new }
{
    if is_unsure(body) {
        return hole(ANY, out);
    }
    match sweeping::contract_abstraction(body, out) {
        Some(n) => n,
        None => hole(ANY, out),
    }
}

// Writes the skeleton of variable i: its value, which is normal and so its own swept form, or a hole for a closed term,
// as every value is one.
fn skeleton_variable(
    variable: usize,
    values: &[u8],
    entries: [Entry; VARIABLES],
    out: &mut [u8; SWEPT_BYTES],
) -> usize
    requires { Known values.now entries variable }
    ensures { Entered values.now entries variable out.old result out.new }
{
    match entries[variable] {
        Entry::Open => hole(CLOSED, out),
        Entry::Assigned(span) => {
            copying::copy_into(assignments::value_of(values, span), out, 0);
            span.count
        }
    }
}

// Writes the skeleton of an application: from its head's and its argument's. What a hole is applied to is lost in it, and isn't looked at.
#[cycle(skeleton)]
fn skeleton_application(
    s: &[u8],
    values: &[u8],
    entries: [Entry; VARIABLES],
    out: &mut [u8; SWEPT_BYTES],
) -> usize
    requires { SkeletonInput s.now values.now entries × (get_or s.now 0 0 ≡ application_kind) }
    ensures { WritesSkeleton s.now values.now entries out.old result out.new }
{
    let mut head = [0u8; SWEPT_BYTES];
    let n = skeleton(records::head_of(s), values, entries, &mut head);
    if head[0] == Kind::VARIABLE.code {
        return hole_for(s, out);
    }
    let mut argument = [0u8; SWEPT_BYTES];
    let m = skeleton(records::argument_of(s), values, entries, &mut argument);
    let n = n * RECORD;
    let m = m * RECORD;
    apply_skeleton(&head[0..n], &argument[0..m], out)
}

// Writes the skeleton of an abstraction: from its body's.
#[cycle(skeleton)]
fn skeleton_abstraction(
    s: &[u8],
    values: &[u8],
    entries: [Entry; VARIABLES],
    out: &mut [u8; SWEPT_BYTES],
) -> usize
    requires { SkeletonInput s.now values.now entries × (get_or s.now 0 0 ≡ abstraction_kind) }
    ensures { WritesSkeleton s.now values.now entries out.old result out.new }
{
    let mut body = [0u8; SWEPT_BYTES];
    let n = skeleton(records::body_of(s), values, entries, &mut body);
    let n = n * RECORD;
    abstract_over(&body[0..n], out)
}

// Writes the skeleton of the part s, with the values that the entries have in the value table, into out from byte 0 on. Gives its number of
// records.
// Constants and locals are their own skeletons.
#[cycle(skeleton)]
pub fn skeleton(
    s: &[u8],
    values: &[u8],
    entries: [Entry; VARIABLES],
    out: &mut [u8; SWEPT_BYTES],
) -> usize
    requires { SkeletonInput s.now values.now entries }
    ensures { WritesSkeleton s.now values.now entries out.old result out.new }
{
    let kind = s[0];
    if kind == Kind::APPLICATION.code {
        return skeleton_application(s, values, entries, out);
    }
    if kind == Kind::ABSTRACTION.code {
        return skeleton_abstraction(s, values, entries, out);
    }
    if kind == Kind::VARIABLE.code {
        return skeleton_variable(records::number_at(s, 0), values, entries, out);
    }
    copying::copy_into(s, out, 0);
    1
}

// Passes the term that s begins with at the hole that c begins with, if it may stand there: at a hole for closed terms the height that is
// kept of it tells.
fn fits_hole(c: &[u8], s: &[u8], heights: &[u8]) -> Option<Places>
    requires { SkeletonComparable c.now s.now heights.now × (get_or c.now 0 0 ≡ variable_kind) }
    ensures { SkeletonCompared c.now s.now result }
{
    if records::number_at(c, 0) != ANY {
        if heights[0] != 0 {
            return None;
        }
    }
    Some(Places {
        first: RECORD,
        second: records::end_at(s, 0),
    })
}

// Walks over the skeleton that c begins with and the term that s begins with together, as far as the term fits. At a hole it passes a whole
// part of the term. The heights of the term's parts are lent beside it.
fn fits(c: &[u8], s: &[u8], heights: &[u8]) -> Option<Places>
    requires { SkeletonComparable c.now s.now heights.now }
    ensures { SkeletonCompared c.now s.now result }
{
    let kind = c[0];
    if kind == Kind::VARIABLE.code {
        return fits_hole(c, s, heights);
    }
    if kind != s[0] {
        return None;
    }
    if kind == Kind::APPLICATION.code {
        let head = fits(&c[RECORD..], &s[RECORD..], &heights[1..])?;
        let n = RECORD + head.first;
        let m = RECORD + head.second;
        let argument = fits(&c[n..], &s[m..], &heights[m / RECORD..])?;
        return Some(argument.behind(n, m));
    }
    if kind == Kind::ABSTRACTION.code {
        let body = fits(&c[RECORD..], &s[RECORD..], &heights[1..])?;
        return Some(body.behind(RECORD, RECORD));
    }
    if records::number_at(c, 0) == records::number_at(s, 0) {
        return Some(Places::RECORDS);
    }
    None
}

// Whether the term that s begins with, whose heights are lent beside it, may be the swept form of a part with the skeleton c.
pub fn may_be(c: &[u8], s: &[u8], heights: &[u8]) -> bool
    requires { SkeletonComparable c.now s.now heights.now }
    ensures { MayBe c.now s.now result }
{
    fits(c, s, heights).is_some()
}

// Whether a part with the skeleton c, which is no hole, may be an abstraction that comes to the term that the target begins with, with
// the one that the argument begins with put in: the former fits the skeleton applied to the latter. The heights of the target's parts are
// lent beside it.
pub fn may_build(c: &[u8], argument: &[u8], target: &[u8], heights: &[u8]) -> bool
    requires { SkeletonApplicable c.now argument.now target.now heights.now × ¬ (get_or c.now 0 0 ≡ variable_kind) }
    ensures { MayBuild c.now argument.now target.now result }
{
    let end = records::end_at(argument, 0);
    let mut built = [0u8; SWEPT_BYTES];
    let n = apply_skeleton(c, &argument[0..end], &mut built);
    let n = n * RECORD;
    may_be(&built[0..n], target, heights)
}
