// Terms compared and moved under binders.
//
// The search asks of the parts of a target whether one is another shifted, whether it can be moved out of the binders above it, which
// loose locals it has, and whether its head is rigid. Each function is lent a part as a slice that begins with it, whatever follows
// behind, and promises its answer for the very terms that stand there. It rests on `records` for single records and parts, on `copying`
// for a record that stays as it is, and on `substitution` for what a writer leaves.

#![tactic(auto)]

ghost use Rattle.std.specs.Prelude.{◌≡◌, ◌≤◌, ◌<◌, length};
ghost use Rattle.terms.specs.Figures.{numbers};
ghost use Rattle.terms.specs.Term.{Term, loc, shift, unshift};
ghost use Rattle.terms.specs.Heads.{rigid};
ghost use Rattle.records.specs.Parts.{Part, Whole};
ghost use Rattle.records.specs.Tests.{Says};
ghost use Rattle.shifting.specs.Tests.{PartsComparable, Shifted, PartsCompared};
ghost use Rattle.shifting.specs.Lowering.{Inside, Lowers, Lowered};
ghost use Rattle.shifting.specs.Locals.{Marks, Marked};

use records::{Kind, RECORD};

// Whether the part that s begins with has a rigid head: its first record that is no application is a local or a constant.
pub fn is_rigid(s: &[u8]) -> bool
    requires { Whole s.now 0 }
    ensures { (t : Term) → Part s.now 0 t → result ≡ rigid t }
{
    let k = s[0];
    if k == Kind::APPLICATION.code {
        return is_rigid(&s[RECORD..]);
    }
    if k == Kind::LOCAL.code {
        return true;
    }
    k == Kind::CONSTANT.code
}

// Whether local m is local n, shifted by d from local c on.
fn is_shifted_local(m: usize, n: usize, d: usize, c: usize) -> bool
    requires { (n < numbers) × (d ≤ numbers) }
    ensures { Says result (loc m ≡ shift d c (loc n)) }
{
    if n < c {
        return m == n;
    }
    m == n + d
}

// Whether the part that s begins with is the part that e begins with, shifted by d from local c on; and how many bytes it takes. As far as
// the two agree they have records of the same kinds, so that one length leads from each head to its argument.
pub fn is_shifted(s: &[u8], e: &[u8], c: usize, d: usize) -> Option<usize>
    requires { PartsComparable s.now e.now c d }
    ensures { PartsCompared s.now e.now (Shifted d c) result }
{
    let k = s[0];
    if k != e[0] {
        return None;
    }
    if k == Kind::APPLICATION.code {
        let next = RECORD + is_shifted(&s[RECORD..], &e[RECORD..], c, d)?;
        return Some(next + is_shifted(&s[next..], &e[next..], c, d)?);
    }
    if k == Kind::ABSTRACTION.code {
        return Some(RECORD + is_shifted(&s[RECORD..], &e[RECORD..], c + 1, d)?);
    }
    let m = records::number_at(s, 0);
    let n = records::number_at(e, 0);
    if k == Kind::LOCAL.code {
        return is_shifted_local(m, n, d, c).then_some(RECORD);
    }
    (m == n).then_some(RECORD)
}

// How many bytes the part that s begins with takes, if it is a copy of the part that e begins with: that part, shifted by the d binders
// above it. Nearly always their first records are of different kinds, which is told here, without a call of the recursive walk.
pub fn copy_length(s: &[u8], e: &[u8], d: usize) -> Option<usize>
    requires { PartsComparable s.now e.now 0 d }
    ensures { PartsCompared s.now e.now (Shifted d 0) result }
{
    if s[0] != e[0] {
        return None;
    }
    is_shifted(s, e, 0, d)
}

// Whether local n belongs to one of d binders, the first of which local c belongs to.
fn is_inside(n: usize, c: usize, d: usize) -> bool
    requires { (c ≤ numbers) × (d ≤ numbers) }
    ensures { Says result (Inside c d n) }
{
    if n < c {
        return false;
    }
    n < c + d
}

// The number of local n where d binders are left out, to none of which it belongs.
pub fn unshifted(n: usize, c: usize, d: usize) -> usize
    requires { (Inside c d n → ⊥) × (n < numbers) }
    ensures { (loc result ≡ unshift d c (loc n)) × (result < numbers) }
{
    if n < c {
        return n;
    }
    n - d
}

// Writes the part that s begins with, moved out of d binders, into out from byte o on, and tells how many bytes it takes. Local c of the
// part belongs to the innermost of them. It stops at the first local that belongs to one.
pub fn lower_into(s: &[u8], c: usize, d: usize, out: &mut [u8], o: usize) -> Option<usize>
    requires { Lowers s.now c d (length out.old) o }
    ensures { Lowered s.now c d out.old o out.new result }
{
    let kind = s[0];
    if kind == Kind::APPLICATION.code {
        records::put_record(out, o, Kind::APPLICATION, 0);
        let next = RECORD + lower_into(&s[RECORD..], c, d, out, o + RECORD)?;
        return Some(next + lower_into(&s[next..], c, d, out, o + next)?);
    }
    if kind == Kind::ABSTRACTION.code {
        records::put_record(out, o, Kind::ABSTRACTION, 0);
        return Some(RECORD + lower_into(&s[RECORD..], c + 1, d, out, o + RECORD)?);
    }
    if kind == Kind::LOCAL.code {
        let n = records::number_at(s, 0);
        if is_inside(n, c, d) {
            return None;
        }
        records::put_record(out, o, Kind::LOCAL, unshifted(n, c, d));
        return Some(RECORD);
    }
    copying::copy_into(&s[0..RECORD], out, o);
    Some(RECORD)
}

// Marks each local that the part that s begins with uses and whose binder stands above it and above `depth` more binders. Gives how many
// bytes the part takes.
pub fn loose_locals(s: &[u8], depth: usize, marks: &mut [u8]) -> usize
    requires { Marks s.now depth (length marks.old) }
    ensures { Marked s.now depth marks.old marks.new result }
{
    let k = s[0];
    if k == Kind::APPLICATION.code {
        let next = RECORD + loose_locals(&s[RECORD..], depth, marks);
        return next + loose_locals(&s[next..], depth, marks);
    }
    if k == Kind::ABSTRACTION.code {
        return RECORD + loose_locals(&s[RECORD..], depth + 1, marks);
    }
    if k == Kind::LOCAL.code {
        let n = records::number_at(s, 0);
        if n < depth {
            return RECORD;
        }
        let j = n - depth;
        marks[j] = 1;
    }
    RECORD
}
