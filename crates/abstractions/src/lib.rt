// Occurrences of a part in a target, and the bodies that they give.
//
// An application whose head is unknown comes to a target in as many ways as an argument can be found in it. To list them the search asks
// how deep a part of the target stands, whether the same was found earlier, how many copies of an argument there are, and for the body in
// which some of them are replaced. Each function is lent a part as a slice that begins with it, whatever follows behind, and promises its
// answer for the very terms that stand there. It rests on `shifting` to compare terms under binders, on `records` and `substitution` for
// reading and writing them, and on `matching` for the numbering of parts and copies.
//
// A body is named by the choices made at the copies, left to right, which makes both completeness and "none twice" a fact about choices;
// each body is written in one pass over the target. It costs writing the part before the last choice again. A benchmark in which writing
// bodies dominates would change that.

#![tactic(auto)]

ghost use Rattle.std.specs.Prelude.{◌≡◌, ◌+◌, ◌≤◌, ◌<◌, length};
ghost use Rattle.terms.specs.Figures.{table_bytes};
ghost use Rattle.terms.specs.Term.{shift};
ghost use Rattle.substitution.specs.Writers.{Source};
ghost use Rattle.abstractions.specs.Bodies.{Counting, CopiesCounted, BodySource, Chose, Body};
ghost use Rattle.abstractions.specs.Occurrences.{DepthSource, WroteDepths, Looks, CopyAt, CopyBefore, Earlier};

use records::{Kind, RECORD};

// How many bytes a part takes, and how many copies of a term it has.
#[derive(Clone, Copy)]
pub struct Counted {
    pub length: usize,
    pub count: usize,
}

// How many copies of the part that e begins with the part that s begins with has, which stands below d binders. A copy is the part of e
// shifted by the binders above it; within a copy no other is counted.
pub fn copies(s: &[u8], d: usize, e: &[u8]) -> Counted
    requires { Counting s.now d e.now }
    ensures { CopiesCounted s.now d e.now result.length result.count }
{
    if let Some(length) = shifting::copy_length(s, e, d) {
        return Counted { length, count: 1 };
    }
    let kind = s[0];
    if kind == Kind::APPLICATION.code {
        let head = copies(&s[RECORD..], d, e);
        let argument = copies(&s[RECORD + head.length..], d, e);
        return Counted {
            length: RECORD + head.length + argument.length,
            count: head.count + argument.count,
        };
    }
    if kind == Kind::ABSTRACTION.code {
        let body = copies(&s[RECORD..], d + 1, e);
        return Counted {
            length: RECORD + body.length,
            count: body.count,
        };
    }
    Counted {
        length: RECORD,
        count: 0,
    }
}

// How many bytes a part takes, where what is written for it ends, and the number of the next choice.
#[derive(Clone, Copy)]
pub struct Built {
    pub length: usize,
    pub end: usize,
    pub k: usize,
}

// What is built of a part that begins n bytes further on, told from here.
fn built_further(built: Built, n: usize) -> Built
    requires { n + built.length ≤ table_bytes }
    ensures { (result.length ≡ n + built.length) × (result.end ≡ built.end) × (result.k ≡ built.k) }
{
    Built {
        length: n + built.length,
        end: built.end,
        k: built.k,
    }
}

// Writes the part that s begins with, which is a copy, into out from byte o on, and gives where it ends there: as local d if choice k is
// made, and else shifted by the one binder that is put above it.
fn choice_into(s: &[u8], d: usize, chosen: &[u8], k: usize, out: &mut [u8], o: usize) -> usize
    requires { Source (shift 1) s.now 0 d (length out.old) o × (k < length chosen.now) }
    ensures { Chose s.now d chosen.now k out.old o out.new result }
{
    if chosen[k] == 0 {
        let kept = substitution::shift_into(s, 1, d, out, o);
        return kept.end;
    }
    records::put_record(out, o, Kind::LOCAL, d);
    o + RECORD
}

// Writes the body that the part that s begins with gives, which stands below d binders, into out from byte o on: each copy of the part that
// e begins with by its choice, the copies numbered from k on in the order of the table, and every other record shifted by the one binder
// that is put above it.
pub fn body_into(
    s: &[u8],
    d: usize,
    e: &[u8],
    chosen: &[u8],
    k: usize,
    out: &mut [u8],
    o: usize,
) -> Built
    requires { BodySource s.now d e.now (length chosen.now) k (length out.old) o }
    ensures { Body s.now d e.now chosen.now k out.old o out.new
        result.length result.end result.k }
{
    if let Some(length) = shifting::copy_length(s, e, d) {
        let end = choice_into(s, d, chosen, k, out, o);
        return Built {
            length,
            end,
            k: k + 1,
        };
    }
    let kind = s[0];
    if kind == Kind::APPLICATION.code {
        records::put_record(out, o, Kind::APPLICATION, 0);
        let head = body_into(&s[RECORD..], d, e, chosen, k, out, o + RECORD);
        let next = RECORD + head.length;
        let argument = body_into(&s[next..], d, e, chosen, head.k, out, head.end);
        return built_further(argument, next);
    }
    if kind == Kind::ABSTRACTION.code {
        records::put_record(out, o, Kind::ABSTRACTION, 0);
        let body = body_into(&s[RECORD..], d + 1, e, chosen, k, out, o + RECORD);
        return built_further(body, RECORD);
    }
    let leaf = substitution::shift_leaf_into(s, 1, d, out, o);
    Built {
        length: leaf.length,
        end: leaf.end,
        k,
    }
}

// Writes how many binders stand above each record of the part that s begins with, above which d binders stand, into out from index o on,
// one byte a record. Gives how many bytes the part takes.
pub fn depths_into(s: &[u8], d: usize, out: &mut [u8], o: usize) -> usize
    requires { DepthSource s.now d (length out.old) o }
    ensures { WroteDepths s.now d out.old o out.new result }
{
    out[o] = d as u8;
    let k = s[0];
    if k == Kind::APPLICATION.code {
        let next = RECORD + depths_into(&s[RECORD..], d, out, o + 1);
        return next + depths_into(&s[next..], d, out, o + next / RECORD);
    }
    if k == Kind::ABSTRACTION.code {
        return RECORD + depths_into(&s[RECORD..], d + 1, out, o + 1);
    }
    RECORD
}

// Whether the part that s begins with is the part that e begins with, moved in below d binders.
fn is_copy(s: &[u8], e: &[u8], d: usize) -> bool
    requires { Looks s.now e.now d }
    ensures { CopyAt s.now e.now d result }
{
    shifting::copy_length(s, e, d).is_some()
}

// Looks for a copy of the part that e begins with among the first `goal` parts of the part that s begins with, above which d binders stand.
// It stops at the first, and gives none; else how many of the parts are left behind it. Where some are left behind a head, the others are
// its records and the application's own.
fn copy_before(s: &[u8], goal: usize, e: &[u8], d: usize) -> Option<usize>
    requires { Looks s.now e.now d }
    ensures { CopyBefore s.now goal e.now d result }
{
    if goal == 0 {
        return Some(0);
    }
    if is_copy(s, e, d) {
        return None;
    }
    let k = s[0];
    if k == Kind::APPLICATION.code {
        let left = copy_before(&s[RECORD..], goal - 1, e, d)?;
        if left == 0 {
            return Some(0);
        }
        let next = RECORD * (goal - left);
        return copy_before(&s[next..], left, e, d);
    }
    if k == Kind::ABSTRACTION.code {
        return copy_before(&s[RECORD..], goal - 1, e, d + 1);
    }
    Some(goal - 1)
}

// Whether one of the first j parts of the part that s begins with is a copy of the part that e begins with.
pub fn occurs_before(s: &[u8], j: usize, e: &[u8]) -> bool
    requires { Looks s.now e.now 0 }
    ensures { Earlier s.now j e.now result }
{
    copy_before(s, j, e, 0).is_none()
}
