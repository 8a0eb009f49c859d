// Instances of a term: the term with another one put for a local.
//
// The search asks of a target whether it is such an instance. The two are gone over together, each lent as a slice that begins with it,
// whatever follows behind; how a walk over two parts ends is told here for other walks too. The crate promises its answer for the very
// terms that stand there. It rests on `records` for single records and parts, and on `shifting` for a copy of the term that is put in.

#![tactic(auto)]

ghost use Rattle.std.specs.Prelude.{◌≡◌, ◌+◌, ◌≤◌, get_or};
ghost use Rattle.terms.specs.Figures.{table_bytes};
ghost use Rattle.terms.specs.Table.{local_kind};
ghost use Rattle.instances.specs.Instances.{behind, Substitutes, Substituted};

use records::{Kind, RECORD};

// How many bytes two parts take.
#[derive(Clone, Copy)]
pub struct Places {
    pub first: usize,
    pub second: usize,
}

impl Places {
    // One record of each.
    pub const RECORDS: Places = Places {
        first: RECORD,
        second: RECORD,
    };

    // As many bytes, behind n of the first part and m of the second.
    pub fn behind(self, n: usize, m: usize) -> Places
        requires { (n + self.first ≤ table_bytes) × (m + self.second ≤ table_bytes) }
        ensures { result ≡ behind n m self }
    {
        Places {
            first: n + self.first,
            second: m + self.second,
        }
    }
}

// Whether the part that t begins with is the local that b begins with, with the part that e begins with put for local k.
fn is_substituted_local(b: &[u8], k: usize, e: &[u8], t: &[u8]) -> Option<Places>
    requires { Substitutes b.now k e.now t.now × (get_or b.now 0 0 ≡ local_kind) }
    ensures { Substituted b.now k e.now t.now result }
{
    let n = records::number_at(b, 0);
    if n == k {
        let second = shifting::is_shifted(t, e, 0, k)?;
        return Some(Places {
            first: RECORD,
            second,
        });
    }
    let m = shifting::unshifted(n, k, 1);
    if t[0] != Kind::LOCAL.code {
        return None;
    }
    (records::number_at(t, 0) == m).then_some(Places::RECORDS)
}

// Whether the part that t begins with is the part that b begins with, with the part that e begins with put for local k. It goes over the
// first two together, and over the argument at each use of the local.
pub fn is_substituted(b: &[u8], k: usize, e: &[u8], t: &[u8]) -> Option<Places>
    requires { Substitutes b.now k e.now t.now }
    ensures { Substituted b.now k e.now t.now result }
{
    let kind = b[0];
    if kind == Kind::LOCAL.code {
        return is_substituted_local(b, k, e, t);
    }
    if kind != t[0] {
        return None;
    }
    if kind == Kind::APPLICATION.code {
        let head = is_substituted(&b[RECORD..], k, e, &t[RECORD..])?;
        let n = RECORD + head.first;
        let m = RECORD + head.second;
        let argument = is_substituted(&b[n..], k, e, &t[m..])?;
        return Some(argument.behind(n, m));
    }
    if kind == Kind::ABSTRACTION.code {
        let body = is_substituted(&b[RECORD..], k + 1, e, &t[RECORD..])?;
        return Some(body.behind(RECORD, RECORD));
    }
    (records::number_at(b, 0) == records::number_at(t, 0)).then_some(Places::RECORDS)
}
