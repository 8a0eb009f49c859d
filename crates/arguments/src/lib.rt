// The argument of an application that was deferred, found at a part of its target.
//
// One of the ways in which such an application comes to its target: its argument sweeps to one of the target's parts, moved out of the
// binders above it, and its head builds the target from that. The crate tries one part of the target. It promises that the agenda it leaves
// has exactly the assignments of that way, or that there are none. Its definitions say what the ways are, and what is known of an
// application before they are gone through. It rests on `agenda` for goals, heights, heads and locals, on `shifting` to move a part out of
// binders, on `abstractions` for what occurs earlier, on `skeletons` for what the argument may be, and on `matching` for why that is all.
//
// Of parts that give the same argument the first one counts. A part whose head differs from a rigid argument's is passed over before
// anything is written: most parts of most targets.

#![tactic(auto)]

ghost use Rattle.std.specs.Prelude.{suc, ◌+◌, ◌<◌};
ghost use Rattle.abstractions.specs.Occurrences.{DepthOf};
ghost use Rattle.arguments.specs.Applications.{ApplicationDeferred, WaysCounted, ArgumentPlace, Placed, ArgumentRoom, ArgumentPushed};
ghost use Rattle.arguments.specs.Ways.{Way};
ghost use Rattle.agenda.specs.Moves.{Branched};

use agenda::{Agenda, GOAL, HEIGHT_BYTES, StoredGoal, TARGET_BYTES, Ways};
use assignments::Entry;
use records::{RECORD, VARIABLES};

// Writes the j-th part of the term at byte `at`, moved out of the `depth` binders above it, as a target with its heights from byte `top`
// on, and gives its end, if it uses none of those binders.
fn place_argument(work: &mut [u8], top: usize, at: usize, j: usize, depth: usize) -> Option<usize>
    requires { ArgumentPlace work.old top at j × DepthOf work.old at j depth }
    ensures { Placed work.old top at j work.new result }
{
    let part = at + RECORD * j;
    let mut e = [0u8; TARGET_BYTES];
    let n = shifting::lower_into(&work[part..], 0, depth, &mut e, 0)?;
    let target = top + HEIGHT_BYTES;
    copying::copy_into(&e[0..n], work, target);
    let end = target + n;
    agenda::keep_heights(work, target, end);
    Some(end)
}

// Writes two goals from byte `end` on: that the goal's head builds its target from the target that was placed at the top, and that its
// argument, at byte `argument` of the pattern, sweeps to that.
fn push_argument(
    work: &mut [u8],
    agenda: Agenda,
    goal: StoredGoal,
    argument: usize,
    end: usize,
) -> Agenda
    requires { ArgumentRoom work.old agenda goal argument end }
    ensures { ArgumentPushed work.old agenda goal argument end work.new result }
{
    let found = agenda.top + HEIGHT_BYTES;
    let head = goal.part + RECORD;
    let built = agenda::build_goal(head, goal.origin, goal.target, goal.next, found);
    agenda::put_goal(work, end, built);
    let swept = agenda::match_goal(argument, found, found, agenda.easy);
    agenda::put_goal(work, end + GOAL, swept);
    Agenda {
        top: end + 2 * GOAL,
        easy: end + GOAL,
        deferred: end,
    }
}

// The argument found at the j-th part of the target: it sweeps to that part, moved out of the binders above it, and the head builds the
// target from it. The quick tests come first.
pub fn find_argument(
    pattern: &[u8],
    work: &mut [u8],
    agenda: Agenda,
    entries: [Entry; VARIABLES],
    j: usize,
    ways: Ways,
) -> Option<Agenda>
    requires { ApplicationDeferred pattern.now work.old agenda entries × WaysCounted pattern.now work.old agenda entries ways
        × (j + 2 < ways.count) }
    ensures { Branched pattern.now work.old agenda entries (Way (suc (suc j))) work.new result }
{
    let goal = agenda::goal_at(work, agenda.deferred);
    let argument = ways.argument;
    let target = goal.target;
    if ways.rigid {
        if !agenda::heads::heads_agree(&pattern[argument..], &work[target + RECORD * j..]) {
            return None;
        }
    }
    let depths = ways.depths;
    let depth = records::wide(depths[j]);
    let end = place_argument(work, agenda.top, target, j, depth)?;
    let skeleton = ways.skeleton;
    let bytes = skeleton.bytes;
    let n = skeleton.length;
    let top = agenda.top;
    let found = top + HEIGHT_BYTES;
    if !skeletons::may_be(&bytes[0..n], &work[found..], &work[top..]) {
        return None;
    }
    if abstractions::occurs_before(&work[target..], j, &work[found..]) {
        return None;
    }
    let head = goal.part + RECORD;
    if ways.lacking {
        if agenda::locals::misses_local(&pattern[head..], &work[target..], &work[found..]) {
            return None;
        }
    }
    Some(push_argument(work, agenda, goal, argument, end))
}
