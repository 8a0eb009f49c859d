// Two parts of the pattern that apply one variable to constants. The constants at the same places are pairs; where each pair's two
// constants differ, and so do the pairs, they stand for the locals of the variable's value.

ghost use Rattle.std.specs.Prelude.{◌≡◌, ◌&&◌, ◌+◌, ◌*◌, ◌≤◌, eqb, length};
ghost use Rattle.terms.specs.Figures.{numbers, pattern_records};
ghost use Rattle.records.specs.Record.{number_at};
ghost use Rattle.records.specs.Parts.{Whole};
ghost use Rattle.joins.specs.Pairs.{pairs_of, Reads, Locates, Adds, Adding, Repeats};

use records::{Kind, RECORD};

// The constants of two applications of one variable, in pairs: the variable stands at bytes `first` and `second` of the pattern, and
// `count` constants behind it at each.
#[derive(Clone, Copy)]
pub struct Pairs {
    pub first: usize,
    pub second: usize,
    pub count: usize,
}

// Whether m and n are the numbers of the records at bytes i and j.
fn is_pair(pattern: &[u8], i: usize, j: usize, m: usize, n: usize) -> bool
    requires { (i + 4 ≤ length pattern.now) × (j + 4 ≤ length pattern.now) }
    ensures { result ≡ (eqb m (number_at pattern.now i) && eqb n (number_at pattern.now j)) }
{
    if m != records::number_at(pattern, i) {
        return false;
    }
    n == records::number_at(pattern, j)
}

// The local that stands for the constants m and n below d binders. The last pair stands for the innermost one.
pub fn find_pair(pattern: &[u8], q: Pairs, m: usize, n: usize, d: usize) -> Option<usize>
    requires { Reads pattern.now q × (d + pattern_records ≤ numbers) }
    ensures { Locates (pairs_of pattern.now q) m n d result }
{
    for k in (1..=q.count).rev() {
        if is_pair(pattern, q.first + RECORD * k, q.second + RECORD * k, m, n) {
            return Some(d + (q.count - k));
        }
    }
    None
}

// Adds the two records behind the pairs q, if they are constants, and make another pair.
fn add_pair(pattern: &[u8], q: Pairs) -> Option<Pairs>
    requires { Adding pattern.now q }
    ensures { Adds pattern.now q result }
{
    let i = q.first + RECORD * (q.count + 1);
    let j = q.second + RECORD * (q.count + 1);
    if pattern[i] != Kind::CONSTANT.code {
        return None;
    }
    if pattern[j] != Kind::CONSTANT.code {
        return None;
    }
    let m = records::number_at(pattern, i);
    let n = records::number_at(pattern, j);
    if m == n {
        return None;
    }
    if find_pair(pattern, q, m, n, 0).is_some() {
        return None;
    }
    Some(Pairs {
        first: q.first,
        second: q.second,
        count: q.count + 1,
    })
}

// The pairs of the parts at bytes x and y, if they apply one variable to constants that are apart. The constants of an application stand one
// behind another, as each is one record.
pub fn spines_at(pattern: &[u8], x: usize, y: usize) -> Option<Pairs>
    requires { Whole pattern.now x × Whole pattern.now y × (length pattern.now ≤ 4 * pattern_records) }
    ensures { Repeats pattern.now x y result }
{
    let kind = pattern[x];
    if kind != pattern[y] {
        return None;
    }
    if kind == Kind::APPLICATION.code {
        let q = spines_at(pattern, x + RECORD, y + RECORD)?;
        return add_pair(pattern, q);
    }
    if kind != Kind::VARIABLE.code {
        return None;
    }
    if records::number_at(pattern, x) != records::number_at(pattern, y) {
        return None;
    }
    Some(Pairs {
        first: x,
        second: y,
        count: 0,
    })
}
