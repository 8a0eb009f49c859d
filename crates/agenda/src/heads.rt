// Whether the head of a part of the pattern can be that of a target.

ghost use Rattle.records.specs.Parts.{Whole};
ghost use Rattle.agenda.specs.Heads.{Agree};

use records::{Kind, RECORD};

// Whether the term that `part` begins with, where it has a rigid head, may sweep to the one that `target` begins with, moved out of some
// binders. Down to the head their records are of the same kinds, and the constant is the same; a local may have another number below the
// binders.
pub fn heads_agree(part: &[u8], target: &[u8]) -> bool
    requires { Whole part.now 0 × Whole target.now 0 }
    ensures { Agree part.now target.now result }
{
    let kind = part[0];
    if kind != target[0] {
        return false;
    }
    if kind == Kind::APPLICATION.code {
        return heads_agree(&part[RECORD..], &target[RECORD..]);
    }
    if kind == Kind::CONSTANT.code {
        return records::number_at(part, 0) == records::number_at(target, 0);
    }
    true
}
