// Terms written with a change: shifted under binders, or with a term put for a local; and the uses of a local counted.
//
// Each function goes over the part that a slice begins with, record by record, and hands the part's head, argument and body on as slices.
// The crate promises that what it writes is the table of the changed term, and how many bytes the part takes. It rests on `records` for
// single records, and on `copying` for those that stay as they are.

#![tactic(auto)]

ghost use Rattle.std.specs.Prelude.{◌≡◌, ◌+◌, ◌≤◌, ◌<◌, length};
ghost use Rattle.terms.specs.Figures.{numbers};
ghost use Rattle.terms.specs.Term.{Term, loc, shift};
ghost use Rattle.terms.specs.Table.{encode};
ghost use Rattle.records.specs.Parts.{Whole};
ghost use Rattle.substitution.specs.Writers.{substitute_for, NumbersFit, Source, Single, Wrote, Substitution, UsesCounted};

use records::{Kind, RECORD};

// How many bytes a part takes of the slice that begins with it, and where what is written for it ends.
#[derive(Clone, Copy)]
pub struct Place {
    pub length: usize,
    pub end: usize,
}

// How many bytes a part takes of the slice that begins with it, and how often it uses a local.
#[derive(Clone, Copy)]
pub struct Uses {
    pub length: usize,
    pub count: usize,
}

// The number of local n, shifted by d from local c on.
fn shifted(n: usize, d: usize, c: usize) -> usize
    requires { NumbersFit (shift d c (loc n)) }
    ensures { (loc result ≡ shift d c (loc n)) × (result < numbers) }
{
    if n < c {
        return n;
    }
    n + d
}

// Writes the part that s begins with, which is one record, shifted by d from local c on, into out from byte o on.
pub fn shift_leaf_into(s: &[u8], d: usize, c: usize, out: &mut [u8], o: usize) -> Place
    requires { Source (shift d) s.now 0 c (length out.old) o × Single s.now 0 }
    ensures { Wrote (shift d) s.now 0 c out.old o out.new result.length result.end }
{
    if s[0] == Kind::LOCAL.code {
        let n = records::number_at(s, 0);
        records::put_record(out, o, Kind::LOCAL, shifted(n, d, c));
        return Place {
            length: RECORD,
            end: o + RECORD,
        };
    }
    copying::copy_into(&s[0..RECORD], out, o);
    Place {
        length: RECORD,
        end: o + RECORD,
    }
}

// Writes the part that s begins with, shifted by d from local c on, into out from byte o on.
pub fn shift_into(s: &[u8], d: usize, c: usize, out: &mut [u8], o: usize) -> Place
    requires { Source (shift d) s.now 0 c (length out.old) o }
    ensures { Wrote (shift d) s.now 0 c out.old o out.new result.length result.end }
{
    let kind = s[0];
    if kind == Kind::APPLICATION.code {
        records::put_record(out, o, Kind::APPLICATION, 0);
        let head = shift_into(&s[RECORD..], d, c, out, o + RECORD);
        let argument = shift_into(&s[RECORD + head.length..], d, c, out, head.end);
        return Place {
            length: RECORD + head.length + argument.length,
            end: argument.end,
        };
    }
    if kind == Kind::ABSTRACTION.code {
        records::put_record(out, o, Kind::ABSTRACTION, 0);
        let body = shift_into(&s[RECORD..], d, c + 1, out, o + RECORD);
        return Place {
            length: RECORD + body.length,
            end: body.end,
        };
    }
    shift_leaf_into(s, d, c, out, o)
}

// The number of local n, which is not k, where a term was put for local k.
fn lowered(n: usize, k: usize) -> usize
    requires { (n ≡ k → ⊥) × (n < numbers) }
    ensures { ((e : Term) → loc result ≡ substitute_for e k (loc n)) × (result < numbers) }
{
    if n < k {
        return n;
    }
    n - 1
}

// Writes the part that b begins with, which is one record, with e put for local k, into out from byte o on. A use becomes e shifted by k,
// the binders that stand between it and the place that e was given for.
fn substitute_leaf_into(b: &[u8], k: usize, e: &[u8], out: &mut [u8], o: usize) -> Place
    requires { Substitution b.now k e.now out.old o × Single b.now 0 }
    ensures { (x : Term) → e.now ≡ encode x
        → Wrote (substitute_for x) b.now 0 k out.old o out.new result.length result.end }
{
    if b[0] == Kind::LOCAL.code {
        let n = records::number_at(b, 0);
        if n == k {
            let copy = shift_into(e, k, 0, out, o);
            return Place {
                length: RECORD,
                end: copy.end,
            };
        }
        records::put_record(out, o, Kind::LOCAL, lowered(n, k));
        return Place {
            length: RECORD,
            end: o + RECORD,
        };
    }
    copying::copy_into(&b[0..RECORD], out, o);
    Place {
        length: RECORD,
        end: o + RECORD,
    }
}

// Writes the part that b begins with, with e put for local k, into out from byte o on.
pub fn substitute_into(b: &[u8], k: usize, e: &[u8], out: &mut [u8], o: usize) -> Place
    requires { Substitution b.now k e.now out.old o }
    ensures { (x : Term) → e.now ≡ encode x
        → Wrote (substitute_for x) b.now 0 k out.old o out.new result.length result.end }
{
    let kind = b[0];
    if kind == Kind::APPLICATION.code {
        records::put_record(out, o, Kind::APPLICATION, 0);
        let head = substitute_into(&b[RECORD..], k, e, out, o + RECORD);
        let argument = substitute_into(&b[RECORD + head.length..], k, e, out, head.end);
        return Place {
            length: RECORD + head.length + argument.length,
            end: argument.end,
        };
    }
    if kind == Kind::ABSTRACTION.code {
        records::put_record(out, o, Kind::ABSTRACTION, 0);
        let body = substitute_into(&b[RECORD..], k + 1, e, out, o + RECORD);
        return Place {
            length: RECORD + body.length,
            end: body.end,
        };
    }
    substitute_leaf_into(b, k, e, out, o)
}

// How often the part that b begins with uses local k.
pub fn count_uses(b: &[u8], k: usize) -> Uses
    requires { Whole b.now 0 × (k + length b.now ≤ numbers) }
    ensures { UsesCounted b.now k result.length result.count }
{
    let kind = b[0];
    if kind == Kind::APPLICATION.code {
        let head = count_uses(&b[RECORD..], k);
        let argument = count_uses(&b[RECORD + head.length..], k);
        return Uses {
            length: RECORD + head.length + argument.length,
            count: head.count + argument.count,
        };
    }
    if kind == Kind::ABSTRACTION.code {
        let body = count_uses(&b[RECORD..], k + 1);
        return Uses {
            length: RECORD + body.length,
            count: body.count,
        };
    }
    if kind == Kind::LOCAL.code {
        if records::number_at(b, 0) == k {
            return Uses {
                length: RECORD,
                count: 1,
            };
        }
        return Uses {
            length: RECORD,
            count: 0,
        };
    }
    Uses {
        length: RECORD,
        count: 0,
    }
}
