// Which of the deferred goals is taken first. The one that is likely to branch least is brought to the front of their list; any order has
// the same assignments, so that nothing depends on how well this is judged.

ghost use Rattle.std.specs.Prelude.{◌≡◌, ◌*◌, ◌<◌};
ghost use Rattle.records.specs.Parts.{Whole};
ghost use Rattle.agenda.specs.State.{Ready};
ghost use Rattle.ordering.specs.Forwarding.{Forwarded};
ghost use Rattle.ordering.specs.Ordering.{Reaches, Branches, Costed, Ranks, Drops, Dropped, linked as linked_to};

use agenda::{Agenda, GOAL, StoredGoal};
use assignments::Entry;
use records::{RECORD, VARIABLES};

// What a body counts for: it leads on to a goal of its own, and so to more than one way of an application does.
const BODY: usize = 4;

// The cost of a goal to build whose argument has very many copies.
const MOST_BODIES: usize = 16380;

// The cost of the bodies that so many copies give, or `MOST_BODIES` if it is more: at each copy a body has its local or the copy, and its
// local at one of them.
fn bodies_cost(copies: usize) -> usize {
    let mut n = 0;
    for _ in 0..copies {
        n = 2 * n + BODY;
        if MOST_BODIES <= n {
            return MOST_BODIES;
        }
    }
    n
}

// Whether the term that `argument` begins with may sweep to the target's part at record k, moved out of binders.
fn is_candidate(argument: &[u8], target: &[u8], k: usize) -> bool
    requires { Whole argument.now 0 × Whole target.now (4 * k) }
{
    agenda::heads::heads_agree(argument, &target[RECORD * k..])
}

// In how many ways the application that `part` begins with comes to the target, about: the two that need no target for its argument, and
// one for each part of the target that the argument may sweep to. A flexible argument may sweep to any.
fn candidates(part: &[u8], target: &[u8]) -> usize
    requires { Branches part.now target.now }
{
    let at = records::end_at(part, RECORD);
    let argument = &part[at..];
    let end = records::end_at(target, 0);
    let n = end / RECORD;
    if !shifting::is_rigid(argument) {
        return 2 + n;
    }
    2 + (0..n)
        .filter(|k| is_candidate(argument, target, *k))
        .count()
}

// In how many ways the goal at byte `at` goes on, about. A goal without open variables is decided, and an application has its candidates. A
// goal to build has its bodies: where the head lacks a local of the argument one is left.
fn cost(pattern: &[u8], work: &[u8], at: usize, entries: [Entry; VARIABLES]) -> usize
    requires { Costed pattern.now work.now at }
{
    let goal = agenda::goal_at(work, at);
    let part = goal.part;
    let target = goal.target;
    let end = records::end_at(pattern, part);
    if deciding::is_assigned(&pattern[part..end], entries) {
        return 0;
    }
    if goal.argument == 0 {
        return candidates(&pattern[part..], &work[target..]);
    }
    let argument = goal.argument;
    if agenda::locals::lacks_local(&pattern[part..], &work[argument..]) {
        return 1;
    }
    let copies = abstractions::copies(&work[target..], 0, &work[argument..]);
    bodies_cost(copies.count)
}

// A goal of a list, and its cost.
#[derive(Clone, Copy)]
struct Choice {
    goal: usize,
    cost: usize,
}

// The first goal of least cost in a list that has one.
fn cheapest_from(pattern: &[u8], work: &[u8], list: usize, entries: [Entry; VARIABLES]) -> Choice
    requires { Ranks pattern.now work.now list }
    ensures { Reaches work.now list result.goal }
{
    let own = cost(pattern, work, list, entries);
    let goal = agenda::goal_at(work, list);
    let next = goal.next;
    if next == 0 {
        return Choice {
            goal: list,
            cost: own,
        };
    }
    let best = cheapest_from(pattern, work, next, entries);
    if best.cost < own {
        return best;
    }
    Choice {
        goal: list,
        cost: own,
    }
}

// Where a list of goals begins, and the first free byte behind what was written.
#[derive(Clone, Copy)]
pub struct Rest {
    pub list: usize,
    pub top: usize,
}

// A goal with another one next.
fn linked(goal: StoredGoal, next: usize) -> StoredGoal
    ensures { result ≡ linked_to goal next }
{
    StoredGoal {
        part: goal.part,
        origin: goal.origin,
        target: goal.target,
        next,
        argument: goal.argument,
    }
}

// A list of goals without the one at byte `goal`. Goals aren't changed where they stand:
// those before it are written anew, from byte `top` on.
pub fn without(work: &mut [u8], top: usize, list: usize, goal: usize) -> Rest
    requires { Drops work.old top list goal }
    ensures { Dropped work.old top list goal work.new result.list result.top }
{
    let stored = agenda::goal_at(work, list);
    if list == goal {
        return Rest {
            list: stored.next,
            top,
        };
    }
    let rest = without(work, top, stored.next, goal);
    let at = rest.top;
    agenda::put_goal(work, at, linked(stored, rest.list));
    Rest {
        list: at,
        top: at + GOAL,
    }
}

// Brings the cheapest of the deferred goals to the front of their list. Where it is there already, as the only one is, nothing is written.
pub fn bring_forward(
    pattern: &[u8],
    work: &mut [u8],
    agenda: Agenda,
    entries: [Entry; VARIABLES],
) -> Agenda
    requires { Ready 0 pattern.now work.old agenda entries × (agenda.easy ≡ 0) × (0 < agenda.deferred) }
    ensures { Forwarded pattern.now work.old agenda entries work.new result }
{
    let first = agenda::goal_at(work, agenda.deferred);
    if first.next == 0 {
        return agenda;
    }
    let best = cheapest_from(pattern, work, agenda.deferred, entries);
    let goal = best.goal;
    if goal == agenda.deferred {
        return agenda;
    }
    let stored = agenda::goal_at(work, goal);
    let rest = without(work, agenda.top, agenda.deferred, goal);
    let at = rest.top;
    agenda::put_goal(work, at, linked(stored, rest.list));
    Agenda {
        top: at + GOAL,
        easy: agenda.easy,
        deferred: at,
    }
}
