// The value of a variable that is applied to pairs of constants, read off two targets.

ghost use Rattle.std.specs.Prelude.{◌≡◌, length, get_or};
ghost use Rattle.terms.specs.Table.{constant_kind};
ghost use Rattle.substitution.specs.Writers.{Single};
ghost use Rattle.joins.specs.Joins.{Joins, Alike, Joined, Encloses, Enclosed};

use crate::pairs::Pairs;
use records::{Kind, RECORD};
use sweeping::SWEPT_BYTES;

// Writes the record that both targets begin with, if it has the same number in each. Locals above the d binders make room for those of the
// pairs.
fn same_leaf_into(
    pattern: &[u8],
    q: Pairs,
    first: &[u8],
    second: &[u8],
    d: usize,
    out: &mut [u8],
    o: usize,
) -> Option<usize>
    requires { Joins pattern.now q first.now second.now d (length out.old) o × Single first.now 0
        × Alike pattern.now q first.now second.now d }
    ensures { Joined pattern.now q first.now second.now d out.old o
        out.new result }
{
    if records::number_at(first, 0) != records::number_at(second, 0) {
        return None;
    }
    substitution::shift_leaf_into(first, q.count, d, out, o);
    Some(RECORD)
}

// Writes the local that stands for the constants that the targets begin with, or the constant that both are.
fn join_constants_into(
    pattern: &[u8],
    q: Pairs,
    first: &[u8],
    second: &[u8],
    d: usize,
    out: &mut [u8],
    o: usize,
) -> Option<usize>
    requires { Joins pattern.now q first.now second.now d (length out.old) o × (get_or first.now 0 0 ≡ constant_kind)
        × (get_or second.now 0 0 ≡ constant_kind) }
    ensures { Joined pattern.now q first.now second.now d out.old o
        out.new result }
{
    let m = records::number_at(first, 0);
    let n = records::number_at(second, 0);
    match crate::pairs::find_pair(pattern, q, m, n, d) {
        Some(k) => {
            records::put_record(out, o, Kind::LOCAL, k);
            Some(RECORD)
        }
        None => same_leaf_into(pattern, q, first, second, d, out, o),
    }
}

// Writes the term that comes to the two targets with the first and with the second constants put in, into out from byte o on, and tells how
// many bytes the first target takes. Each slice begins with its target, whatever follows behind. As far as there is such a term the targets
// have records of the same kinds, so that one length leads from each head to its argument.
pub fn join_into(
    pattern: &[u8],
    q: Pairs,
    first: &[u8],
    second: &[u8],
    d: usize,
    out: &mut [u8],
    o: usize,
) -> Option<usize>
    requires { Joins pattern.now q first.now second.now d (length out.old) o }
    ensures { Joined pattern.now q first.now second.now d out.old o
        out.new result }
{
    let kind = first[0];
    if kind != second[0] {
        return None;
    }
    if kind == Kind::APPLICATION.code {
        records::put_record(out, o, Kind::APPLICATION, 0);
        let head = join_into(
            pattern,
            q,
            &first[RECORD..],
            &second[RECORD..],
            d,
            out,
            o + RECORD,
        )?;
        let next = RECORD + head;
        let argument = join_into(
            pattern,
            q,
            &first[next..],
            &second[next..],
            d,
            out,
            o + next,
        )?;
        return Some(next + argument);
    }
    if kind == Kind::ABSTRACTION.code {
        records::put_record(out, o, Kind::ABSTRACTION, 0);
        let body = join_into(
            pattern,
            q,
            &first[RECORD..],
            &second[RECORD..],
            d + 1,
            out,
            o + RECORD,
        )?;
        return Some(RECORD + body);
    }
    if kind == Kind::CONSTANT.code {
        return join_constants_into(pattern, q, first, second, d, out, o);
    }
    same_leaf_into(pattern, q, first, second, d, out, o)
}

// Writes what n abstractions over the body come to from byte o on, and gives where that ends. It calls itself, since each abstraction is
// contracted into a table of its own; a loop would copy that back each time.
pub fn enclose_into(body: &[u8], n: usize, work: &mut [u8], o: usize) -> usize
    requires { Encloses body.now n (length work.old) o }
    ensures { Enclosed body.now n work.old o work.new result }
{
    if n == 0 {
        copying::copy_into(body, work, o);
        return o + body.len();
    }
    let mut out = [0u8; SWEPT_BYTES];
    // never so: there are too few records
    let Some(m) = sweeping::contract_abstraction(body, &mut out) else {
        return o;
    };
    enclose_into(&out[0..m * RECORD], n - 1, work, o)
}
