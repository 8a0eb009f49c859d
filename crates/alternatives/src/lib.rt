// The ways of an application that was deferred: one that isn't rigid.
//
// Such an application comes to its target by the target's own parts, by a head that ignores the argument, or by an argument that is
// found at one of the target's parts. The crate counts the ways, and tries one: it promises that the agenda it leaves has exactly the
// assignments of that way, or that there are none. It rests on `agenda` for goals, on `deciding` for skeletons, on `builds` for the
// abstraction that is written, on `arguments` for an argument that is found, and on `matching` for why there are no other ways.
//
// Ways are numbers: 0 for the target's own parts, 1 for the constant function, 2 + j for the argument whose first occurrence is the
// target's part j. One function takes a number and leaves the next agenda, so that the loop over them has one law. What is known of an
// application is found once, before its ways are gone through.

#![tactic(auto)]

ghost use Rattle.std.specs.Prelude.{◌+◌, ◌<◌};
ghost use Rattle.arguments.specs.Applications.{ApplicationDeferred, WaysCounted};
ghost use Rattle.arguments.specs.Ways.{Way};
ghost use Rattle.agenda.specs.Moves.{Branched};

use agenda::{Agenda, GOAL, TARGET_BYTES, Ways};
use assignments::Entry;
use records::{Ask, Kind, PATTERN_RECORDS, RECORD, VALUE_RECORDS, VARIABLES};

// The ways in which the first deferred goal, an application, can come to its target: by the target's own parts, by a head that ignores
// its argument, and by each part of the target as the argument's.
pub fn ways(pattern: &[u8], work: &[u8], agenda: Agenda, entries: [Entry; VARIABLES]) -> Ways
    requires { ApplicationDeferred pattern.now work.now agenda entries }
    ensures { WaysCounted pattern.now work.now agenda entries result }
{
    let goal = agenda::goal_at(work, agenda.deferred);
    let head = goal.part + RECORD;
    let target = goal.target;
    let end = records::end_at(work, target);
    let argument = records::end_at(pattern, head);
    let part = &pattern[argument..];
    let rigid = shifting::is_rigid(part);
    let walk = records::ask_part(part, Ask::Bound, PATTERN_RECORDS);
    let skeleton = deciding::skeleton_of(part, walk, work, entries);
    let lacking = agenda::locals::lacks_local(&pattern[head..], &work[target..]);
    let mut depths = [0u8; VALUE_RECORDS];
    abstractions::depths_into(&work[target..], 0, &mut depths, 0);
    Ways {
        count: (end - target) / RECORD + 2,
        argument,
        rigid,
        skeleton,
        lacking,
        depths,
    }
}

// The target's own parts: its head is the head's target, and its argument the argument's.
fn split(
    pattern: &[u8],
    work: &mut [u8],
    agenda: Agenda,
    entries: [Entry; VARIABLES],
) -> Option<Agenda>
    requires { ApplicationDeferred pattern.now work.old agenda entries }
    ensures { Branched pattern.now work.old agenda entries (Way 0) work.new result }
{
    let goal = agenda::goal_at(work, agenda.deferred);
    let target = goal.target;
    if work[target] != Kind::APPLICATION.code {
        return None;
    }
    let argument = records::end_at(pattern, goal.part + RECORD);
    let end = records::end_at(work, target + RECORD);
    agenda::put_goal(
        work,
        agenda.top,
        agenda::match_goal(argument, goal.origin, end, agenda.easy),
    );
    agenda::put_goal(
        work,
        agenda.top + GOAL,
        agenda::match_goal(goal.part + RECORD, goal.origin, target + RECORD, agenda.top),
    );
    Some(Agenda {
        top: agenda.top + 2 * GOAL,
        easy: agenda.top + GOAL,
        deferred: goal.next,
    })
}

// A head that ignores its argument: it is the abstraction over the target, moved in below the binder. A head that lacks a local of the
// target lacks it in that abstraction too.
fn constant_head(
    pattern: &[u8],
    work: &mut [u8],
    agenda: Agenda,
    entries: [Entry; VARIABLES],
    ways: Ways,
) -> Option<Agenda>
    requires { ApplicationDeferred pattern.now work.old agenda entries × WaysCounted pattern.now work.old agenda entries ways }
    ensures { Branched pattern.now work.old agenda entries (Way 1) work.new result }
{
    if ways.lacking {
        return None;
    }
    let goal = agenda::goal_at(work, agenda.deferred);
    let mut b = [0u8; TARGET_BYTES];
    let target = goal.target;
    let moved = substitution::shift_into(&work[target..], 1, 0, &mut b, 0);
    let n = moved.end;
    let head = agenda::match_goal(goal.part + RECORD, goal.origin, goal.target, goal.next);
    Some(builds::push_abstraction(work, agenda, head, &b[0..n]))
}

// The way with this number in which the first deferred goal, an application, comes to its target; none, if it doesn't. A number and no
// enum, since the search counts through the ways.
pub fn way(
    pattern: &[u8],
    work: &mut [u8],
    agenda: Agenda,
    entries: [Entry; VARIABLES],
    number: usize,
    ways: Ways,
) -> Option<Agenda>
    requires { ApplicationDeferred pattern.now work.old agenda entries × WaysCounted pattern.now work.old agenda entries ways
        × (number < ways.count) }
    ensures { Branched pattern.now work.old agenda entries (Way number) work.new result }
{
    if number == 0 {
        return split(pattern, work, agenda, entries);
    }
    if number == 1 {
        return constant_head(pattern, work, agenda, entries, ways);
    }
    arguments::find_argument(pattern, work, agenda, entries, number - 2, ways)
}
