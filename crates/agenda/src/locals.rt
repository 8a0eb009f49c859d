// Locals that a target has and a part of the pattern lacks. Each term is lent as a slice that begins with it, whatever follows behind.

ghost use Rattle.std.specs.Prelude.{◌+◌, ◌≤◌, length};
ghost use Rattle.terms.specs.Figures.{table_bytes};
ghost use Rattle.records.specs.Parts.{Whole};
ghost use Rattle.agenda.specs.Locals.{Unused, Locals, Lacks, Missing, ArgumentComparable, Misses};

use records::{Ask, PATTERN_RECORDS};

// Whether local k is marked, and the part of the pattern doesn't use it.
fn is_unused(part: &[u8], k: usize, mark: u8) -> bool
    requires { Whole part.now 0 × (k + length part.now ≤ table_bytes) }
    ensures { Unused part.now k mark result }
{
    if mark != 1 {
        return false;
    }
    records::ask_part(part, Ask::Other, k).is_some()
}

// Whether the target has a loose local that the part of the pattern lacks, which no assignment can bring in.
pub fn lacks_local(part: &[u8], target: &[u8]) -> bool
    requires { Locals part.now target.now }
    ensures { Lacks part.now target.now result }
{
    let mut marks = [0u8; PATTERN_RECORDS];
    shifting::loose_locals(target, 0, &mut marks);
    (0..PATTERN_RECORDS).any(|k| is_unused(part, k, marks[k]))
}

// Whether local k is marked by `mark` and not by `other`, and the part of the pattern doesn't use it.
fn is_missing(part: &[u8], k: usize, mark: u8, other: u8) -> bool
    requires { Whole part.now 0 × (k + length part.now ≤ table_bytes) }
    ensures { Missing part.now k mark other result }
{
    if other == 1 {
        return false;
    }
    is_unused(part, k, mark)
}

// Whether the target has a loose local that neither the argument's target nor the part of the pattern, the head, uses. Nothing brings in
// such a local.
pub fn misses_local(part: &[u8], target: &[u8], argument: &[u8]) -> bool
    requires { ArgumentComparable part.now target.now argument.now }
    ensures { Misses part.now target.now argument.now result }
{
    let mut target_marks = [0u8; PATTERN_RECORDS];
    shifting::loose_locals(target, 0, &mut target_marks);
    let mut argument_marks = [0u8; PATTERN_RECORDS];
    shifting::loose_locals(argument, 0, &mut argument_marks);
    (0..PATTERN_RECORDS).any(|k| is_missing(part, k, target_marks[k], argument_marks[k]))
}
