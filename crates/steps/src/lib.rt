// One step of an easy goal.
//
// An easy goal has one way to go on: a local or a constant is compared with its target, a variable takes it or is compared with its value,
// an abstraction and a rigid application hand their parts on, and a flexible application is deferred. The crate promises that the agenda it
// leaves has exactly the assignments of the one before, or that there are none. It rests on `agenda` for goals, and on `matching` for one
// step of matching.

#![tactic(auto)]

ghost use Rattle.std.specs.Prelude.{◌≡◌, true, ◌+◌, ◌≤◌, ◌<◌, length, get_or};
ghost use Rattle.terms.specs.Table.{application_kind, abstraction_kind, variable_kind};
ghost use Rattle.terms.specs.Term.{Term};
ghost use Rattle.terms.specs.Heads.{rigid};
ghost use Rattle.records.specs.Parts.{Part};
ghost use Rattle.records.specs.Tests.{Says};
ghost use Rattle.agenda.specs.State.{Ready};
ghost use Rattle.steps.specs.Steps.{Stepped};
ghost use Rattle.steps.specs.Opening.{Opens, Plain, Names, SameRecord, Expandable, Expanded};

use agenda::{Agenda, Binding, GOAL, HEIGHT_BYTES, Step, StoredGoal, TARGET_BYTES};
use assignments::{Entry, Span};
use records::{Kind, RECORD, VARIABLES};

// Whether the record of the pattern at byte i and that of work at byte j have one kind and one number.
fn is_same_record(pattern: &[u8], i: usize, work: &[u8], j: usize) -> bool
    requires { (i + 4 ≤ length pattern.now) × (j + 4 ≤ length work.now) }
    ensures { Says result (SameRecord pattern.now i work.now j) }
{
    if pattern[i] != work[j] {
        return false;
    }
    records::number_at(pattern, i) == records::number_at(work, j)
}

// A local or a constant sweeps to itself, whatever is assigned.
fn step_record(
    pattern: &[u8],
    work: &[u8],
    agenda: Agenda,
    entries: [Entry; VARIABLES],
    goal: StoredGoal,
) -> Step
    requires { Opens pattern.now work.now agenda entries goal × Plain pattern.now goal.part }
    ensures { Stepped pattern.now work.now agenda entries work.now result }
{
    if is_same_record(pattern, goal.part, work, goal.target) {
        return Step::Left(Agenda {
            top: agenda.top,
            easy: goal.next,
            deferred: agenda.deferred,
        });
    }
    Step::Failed
}

// The variable is open: it takes the target, if that is closed, as the height that is kept of it tells.
fn step_open(
    pattern: &[u8],
    work: &[u8],
    agenda: Agenda,
    entries: [Entry; VARIABLES],
    goal: StoredGoal,
    variable: usize,
) -> Step
    requires { Names pattern.now work.now agenda entries goal variable × (get_or entries variable Entry.Open ≡ Entry.Open) }
    ensures { Stepped pattern.now work.now agenda entries work.now result }
{
    let place = agenda::heights_place(goal);
    if work[place] != 0 {
        return Step::Failed;
    }
    let target = goal.target;
    let end = records::end_at(work, target);
    let span = Span {
        first: target / RECORD,
        count: (end - target) / RECORD,
    };
    let left = Agenda {
        top: agenda.top,
        easy: goal.next,
        deferred: agenda.deferred,
    };
    Step::Assign(Binding {
        variable,
        span: span,
        agenda: left,
    })
}

// The variable has a value already: the target has to be that.
fn step_assigned(
    pattern: &[u8],
    work: &[u8],
    agenda: Agenda,
    entries: [Entry; VARIABLES],
    goal: StoredGoal,
    variable: usize,
    span: Span,
) -> Step
    requires { Names pattern.now work.now agenda entries goal variable × (get_or entries variable Entry.Open ≡ Entry.Assigned span) }
    ensures { Stepped pattern.now work.now agenda entries work.now result }
{
    let target = goal.target;
    let end = records::end_at(work, target);
    if copying::same_bytes(assignments::value_of(work, span), &work[target..end]) {
        return Step::Left(Agenda {
            top: agenda.top,
            easy: goal.next,
            deferred: agenda.deferred,
        });
    }
    Step::Failed
}

// A variable by its entry.
fn step_variable(
    pattern: &[u8],
    work: &[u8],
    agenda: Agenda,
    entries: [Entry; VARIABLES],
    goal: StoredGoal,
) -> Step
    requires { Opens pattern.now work.now agenda entries goal × (get_or pattern.now goal.part 0 ≡ variable_kind) }
    ensures { Stepped pattern.now work.now agenda entries work.now result }
{
    let i = records::number_at(pattern, goal.part);
    let e = entries[i];
    match e {
        Entry::Open => step_open(pattern, work, agenda, entries, goal, i),
        Entry::Assigned(span) => step_assigned(pattern, work, agenda, entries, goal, i, span),
    }
}

// Writes `@ t #0` from byte o on, for the target t at byte `at`, shifted by the binder that it comes below. Gives where that ends.
fn apply_into(work: &mut [u8], at: usize, o: usize) -> usize
    requires { Expandable work.old at o }
    ensures { Expanded work.old at o work.new result }
{
    let mut shifted = [0u8; TARGET_BYTES];
    let copy = substitution::shift_into(&work[at..], 1, 0, &mut shifted, 0);
    let n = copy.end;
    records::put_record(work, o, Kind::APPLICATION, 0);
    copying::copy_into(&shifted[0..n], work, o + RECORD);
    let local = o + RECORD + n;
    records::put_record(work, local, Kind::LOCAL, 0);
    local + RECORD
}

// An abstraction: its body has to come to the body of the target, or to `@ t #0` where the target t is none.
fn step_abstraction(
    pattern: &[u8],
    work: &mut [u8],
    agenda: Agenda,
    entries: [Entry; VARIABLES],
    goal: StoredGoal,
) -> Step
    requires { Opens pattern.now work.old agenda entries goal × (get_or pattern.now goal.part 0 ≡ abstraction_kind) }
    ensures { Stepped pattern.now work.old agenda entries work.new result }
{
    let top = agenda.top;
    let target = goal.target;
    let body = goal.part + RECORD;
    if work[target] == Kind::ABSTRACTION.code {
        let below = StoredGoal {
            part: body,
            origin: goal.origin,
            target: target + RECORD,
            next: goal.next,
            argument: 0,
        };
        agenda::put_goal(work, top, below);
        return Step::Left(Agenda {
            top: top + GOAL,
            easy: top,
            deferred: agenda.deferred,
        });
    }
    let applied = top + HEIGHT_BYTES;
    let end = apply_into(work, target, applied);
    agenda::keep_heights(work, applied, end);
    let below = StoredGoal {
        part: body,
        origin: applied,
        target: applied,
        next: goal.next,
        argument: 0,
    };
    agenda::put_goal(work, end, below);
    Step::Left(Agenda {
        top: end + GOAL,
        easy: end,
        deferred: agenda.deferred,
    })
}

// An application with a rigid head comes to an application, part by part.
fn step_rigid(
    pattern: &[u8],
    work: &mut [u8],
    agenda: Agenda,
    entries: [Entry; VARIABLES],
    goal: StoredGoal,
) -> Step
    requires { Opens pattern.now work.old agenda entries goal × (get_or pattern.now goal.part 0 ≡ application_kind)
        × ((t : Term) → Part pattern.now goal.part t → rigid t ≡ true) }
    ensures { Stepped pattern.now work.old agenda entries work.new result }
{
    let target = goal.target;
    if work[target] != Kind::APPLICATION.code {
        return Step::Failed;
    }
    let first = agenda.top;
    let argument = StoredGoal {
        part: records::end_at(pattern, goal.part + RECORD),
        origin: goal.origin,
        target: records::end_at(work, target + RECORD),
        next: goal.next,
        argument: 0,
    };
    agenda::put_goal(work, first, argument);
    let second = first + GOAL;
    let head = StoredGoal {
        part: goal.part + RECORD,
        origin: goal.origin,
        target: target + RECORD,
        next: first,
        argument: 0,
    };
    agenda::put_goal(work, second, head);
    Step::Left(Agenda {
        top: second + GOAL,
        easy: second,
        deferred: agenda.deferred,
    })
}

// An application with any other head is deferred, unless no assignment can bring in a local of the target.
fn step_flexible(
    pattern: &[u8],
    work: &mut [u8],
    agenda: Agenda,
    entries: [Entry; VARIABLES],
    goal: StoredGoal,
) -> Step
    requires { Opens pattern.now work.old agenda entries goal × (get_or pattern.now goal.part 0 ≡ application_kind) }
    ensures { Stepped pattern.now work.old agenda entries work.new result }
{
    let part = goal.part;
    let target = goal.target;
    if agenda::locals::lacks_local(&pattern[part..], &work[target..]) {
        return Step::Failed;
    }
    let top = agenda.top;
    let deferred = StoredGoal {
        part,
        origin: goal.origin,
        target,
        next: agenda.deferred,
        argument: 0,
    };
    agenda::put_goal(work, top, deferred);
    Step::Left(Agenda {
        top: top + GOAL,
        easy: goal.next,
        deferred: top,
    })
}

// Takes the first easy goal.
pub fn step(pattern: &[u8], work: &mut [u8], agenda: Agenda, entries: [Entry; VARIABLES]) -> Step
    requires { Ready 0 pattern.now work.old agenda entries × (0 < agenda.easy) }
    ensures { Stepped pattern.now work.old agenda entries work.new result }
{
    let goal = agenda::goal_at(work, agenda.easy);
    let part = goal.part;
    let kind = pattern[part];
    if kind == Kind::ABSTRACTION.code {
        return step_abstraction(pattern, work, agenda, entries, goal);
    }
    if kind == Kind::VARIABLE.code {
        return step_variable(pattern, work, agenda, entries, goal);
    }
    if kind != Kind::APPLICATION.code {
        return step_record(pattern, work, agenda, entries, goal);
    }
    if shifting::is_rigid(&pattern[part..]) {
        return step_rigid(pattern, work, agenda, entries, goal);
    }
    step_flexible(pattern, work, agenda, entries, goal)
}
