// Deferred goals that what is known of their parts decides.
//
// While variables are open, the skeleton of a goal's part shows what its swept form has for certain. A skeleton without a hole is the swept
// form, and decides the goal; one with a hole may still refuse it. The crate finds the skeleton of a goal's part, and decides the first
// deferred goal or leaves it to the search. It promises that the agenda it leaves has exactly the assignments of the one before, or that
// there are none. It rests on `agenda` for goals, on `skeletons` for what is known of a part, on `builds` to tell whether a head solves a
// goal to build, and on `matching` for what a known part decides.
//
// A goal whose part's skeleton has no hole is decided at once: no way is tried and no body is gone through. That is so where no variable is
// open, and where the value of an assigned variable drops the open ones. Sweeping needs locals of small numbers; a state doesn't say that
// of the pattern, so the walk that finds the part's end asks it. A part with a form above 256 records is left to the search.

#![tactic(auto)]

ghost use Rattle.terms.specs.Figures.{pattern_records};
ghost use Rattle.records.specs.Tests.{Asks, Walked};
ghost use Rattle.records.specs.declared.Ask.TheVariants.{Bound};
ghost use Rattle.deciding.specs.Refuting.{SkeletonSource, PartSkeleton, Judges, Possible};
ghost use Rattle.std.specs.Prelude.{◌+◌, ◌*◌, ◌<◌, ◌≤◌, length};
ghost use Rattle.records.specs.Tests.{Says, Tells};
ghost use Rattle.agenda.specs.State.{Ready, relinking};
ghost use Rattle.agenda.specs.Moves.{Decided};
ghost use Rattle.deciding.specs.Deciding.{HasEntries, OpenAt, AllAssigned, Comparing, FormCompared};

use agenda::{Agenda, Decision, Skeleton, StoredGoal};
use assignments::Entry;
use records::{Ask, Kind, PATTERN_RECORDS, RECORD, VARIABLES};
use sweeping::SWEPT_BYTES;

// The skeleton of the part that `part` begins with. The locals of a part are few, so that those of its skeleton have numbers that a record
// holds; `walk` says so with the part's length, and if it weren't so, the skeleton would be a hole.
pub fn skeleton_of(
    part: &[u8],
    walk: Option<usize>,
    work: &[u8],
    entries: [Entry; VARIABLES],
) -> Skeleton
    requires { SkeletonSource part.now work.now entries × Walked part.now 0 (Asks Bound pattern_records) walk }
    ensures { PartSkeleton part.now work.now entries result.bytes result.length }
{
    let mut bytes = [0u8; SWEPT_BYTES];
    let Some(n) = walk else {
        records::put_record(&mut bytes, 0, Kind::VARIABLE, 0);
        return Skeleton {
            bytes,
            length: RECORD,
        };
    };
    let count = skeletons::skeleton(&part[0..n], work, entries, &mut bytes);
    Skeleton {
        bytes,
        length: count * RECORD,
    }
}

// Whether a part with the skeleton c may meet the goal: the target has to fit the skeleton, and in a goal to build the skeleton applied to
// the argument's target, which says nothing where the skeleton is a hole.
pub fn is_possible(c: &[u8], work: &[u8], goal: StoredGoal) -> bool
    requires { Judges c.now work.now goal }
    ensures { Possible c.now work.now goal result }
{
    let at = goal.target;
    let target = &work[at..];
    let place = agenda::heights_place(goal);
    let heights = &work[place..];
    if goal.argument == 0 {
        return skeletons::may_be(c, target, heights);
    }
    if c[0] == Kind::VARIABLE.code {
        return true;
    }
    if c[0] != Kind::ABSTRACTION.code {
        return false;
    }
    let at = goal.argument;
    skeletons::may_build(c, &work[at..], target, heights)
}

// Whether the k-th record of the part is an open variable.
fn is_open(part: &[u8], k: usize, entries: [Entry; VARIABLES]) -> bool
    requires { HasEntries part.now × (4 * k + 4 ≤ length part.now) }
    ensures { Says result (OpenAt part.now entries k) }
{
    let at = RECORD * k;
    if part[at] != Kind::VARIABLE.code {
        return false;
    }
    let i = records::number_at(part, at);
    let e = entries[i];
    match e {
        Entry::Open => true,
        Entry::Assigned(_) => false,
    }
}

// Whether each variable of the part is assigned.
pub fn is_assigned(part: &[u8], entries: [Entry; VARIABLES]) -> bool
    requires { HasEntries part.now }
    ensures { Tells part.now (AllAssigned entries) result }
{
    (0..part.len() / RECORD).all(|k| !is_open(part, k, entries))
}

// Whether the swept part meets the goal: it is the target, or it solves the goal to build.
fn is_met(work: &[u8], goal: StoredGoal, swept: &[u8]) -> bool
    requires { Comparing work.now goal swept.now }
    ensures { FormCompared work.now goal swept.now result }
{
    let target = goal.target;
    if goal.argument == 0 {
        let end = records::end_at(work, target);
        return copying::same_bytes(swept, &work[target..end]);
    }
    let argument = goal.argument;
    builds::is_solved(swept, &work[argument..], &work[target..])
}

// Decides the first deferred goal, if the skeleton of its part has no hole or refuses the goal. A skeleton without a hole is the swept
// form, also where an assigned variable's value drops open variables. A part without open variables has one, unless a form is above 256
// records.
pub fn decide(pattern: &[u8], work: &[u8], agenda: Agenda, entries: [Entry; VARIABLES]) -> Decision
    requires { Ready relinking pattern.now work.now agenda entries × (0 < agenda.deferred) }
    ensures { Decided relinking pattern.now work.now agenda entries work.now result }
{
    let goal = agenda::goal_at(work, agenda.deferred);
    let i = goal.part;
    let part = &pattern[i..];
    let walk = records::ask_part(part, Ask::Bound, PATTERN_RECORDS);
    let skeleton = skeleton_of(part, walk, work, entries);
    let c = skeleton.bytes;
    let n = skeleton.length;
    if !skeletons::is_exact(&c[0..n]) {
        if is_possible(&c[0..n], work, goal) {
            return Decision::Open;
        }
        return Decision::Failed;
    }
    if is_met(work, goal, &c[0..n]) {
        // a record's room is left free, so that the agenda's top rises at each step
        return Decision::Next(Agenda {
            top: agenda.top + RECORD,
            easy: agenda.easy,
            deferred: goal.next,
        });
    }
    Decision::Failed
}
