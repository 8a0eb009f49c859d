// Locals that stand only as arguments of constants. The sweep leaves `@ k3 #0` as it is, whatever the local becomes, so that a redex whose
// local stands only so can be contracted beforehand with any argument.

ghost use Rattle.std.specs.Prelude.{◌+◌, ◌≤◌, length};
ghost use Rattle.terms.specs.Figures.{table_bytes};
ghost use Rattle.matching.specs.Reducts.{constant_head, is_local, guarded};
ghost use Rattle.records.specs.Parts.{Tree};
ghost use Rattle.records.specs.Tests.{Equals};

use records::Kind;

// Whether the term s begins with a constant: its first record that is no application is one.
fn has_constant_head(s: &[u8]) -> bool
    requires { Tree s.now }
    ensures { Equals s.now constant_head result }
{
    let kind = s[0];
    if kind == Kind::APPLICATION.code {
        return has_constant_head(records::head_of(s));
    }
    kind == Kind::CONSTANT.code
}

// Whether the term s is local k.
fn is_local(s: &[u8], k: usize) -> bool
    requires { Tree s.now }
    ensures { Equals s.now (is_local k) result }
{
    if s[0] != Kind::LOCAL.code {
        return false;
    }
    records::number_at(s, 0) == k
}

// Whether each use of local k in the term s is the argument of an application whose head begins with a constant.
pub fn is_guarded(s: &[u8], k: usize) -> bool
    requires { Tree s.now × (k + length s.now ≤ table_bytes) }
    ensures { Equals s.now (guarded k) result }
{
    let kind = s[0];
    if kind == Kind::APPLICATION.code {
        let head = records::head_of(s);
        if !is_guarded(head, k) {
            return false;
        }
        let argument = records::argument_of(s);
        if is_local(argument, k) {
            return has_constant_head(head);
        }
        return is_guarded(argument, k);
    }
    if kind == Kind::ABSTRACTION.code {
        return is_guarded(records::body_of(s), k + 1);
    }
    !is_local(s, k)
}
