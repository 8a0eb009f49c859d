// One variable applied to constants in two deferred goals: its value can be read off the two targets.

ghost use Rattle.std.specs.Prelude.{◌≡◌};
ghost use Rattle.records.specs.Parts.{Whole};
ghost use Rattle.agenda.specs.State.{Ready};
ghost use Rattle.agenda.specs.Moves.{Decided};
ghost use Rattle.ordering.specs.Repeated.{GoalsListed, Later, RepeatedFound};

use agenda::{Agenda, Decision, GOAL, HEIGHT_BYTES, TARGET_BYTES};
use assignments::Entry;
use joins::pairs::Pairs;
use records::VARIABLES;

// Two goals that apply one variable to constants, and the pairs of these.
#[derive(Clone, Copy)]
pub struct Occurrences {
    pub first: usize,
    pub second: usize,
    pub pairs: Pairs,
}

// The first goal of a list whose part repeats the variable of `goal`, the part of which is at byte x of the pattern.
fn find_second(
    pattern: &[u8],
    work: &[u8],
    list: usize,
    goal: usize,
    x: usize,
) -> Option<Occurrences>
    requires { GoalsListed pattern.now work.now list × Whole pattern.now x }
    ensures { Later pattern.now work.now list goal x result }
{
    if list == 0 {
        return None;
    }
    let stored = agenda::goal_at(work, list);
    if stored.argument != 0 {
        return find_second(pattern, work, stored.next, goal, x);
    }
    match joins::pairs::spines_at(pattern, x, stored.part) {
        Some(pairs) => Some(Occurrences {
            first: goal,
            second: list,
            pairs,
        }),
        None => find_second(pattern, work, stored.next, goal, x),
    }
}

// The first two goals of a list that repeat one variable.
fn find_first(pattern: &[u8], work: &[u8], list: usize) -> Option<Occurrences>
    requires { GoalsListed pattern.now work.now list }
    ensures { RepeatedFound pattern.now work.now list result }
{
    if list == 0 {
        return None;
    }
    let goal = agenda::goal_at(work, list);
    if goal.argument != 0 {
        return find_first(pattern, work, goal.next);
    }
    match find_second(pattern, work, goal.next, list, goal.part) {
        Some(r) => Some(r),
        None => find_first(pattern, work, goal.next),
    }
}

// Puts one easy goal in the place of two goals that apply one variable to different constants, if there are two such goals. The value that
// comes to both targets is the only one, and where there is none the goals have no assignment.
pub fn force(
    pattern: &[u8],
    work: &mut [u8],
    agenda: Agenda,
    entries: [Entry; VARIABLES],
) -> Decision
    requires { Ready 0 pattern.now work.old agenda entries × (agenda.easy ≡ 0) }
    ensures { Decided 0 pattern.now work.old agenda entries work.new result }
{
    let search = find_first(pattern, work, agenda.deferred);
    let Some(r) = search else {
        return Decision::Open;
    };
    let pairs = r.pairs;
    let first = agenda::goal_at(work, r.first);
    let second = agenda::goal_at(work, r.second);
    let t = first.target;
    let u = second.target;
    let mut b = [0u8; TARGET_BYTES];
    let walk = joins::joining::join_into(pattern, pairs, &work[t..], &work[u..], 0, &mut b, 0);
    let Some(n) = walk else {
        return Decision::Failed;
    };
    let value = agenda.top + HEIGHT_BYTES;
    let top = joins::joining::enclose_into(&b[0..n], pairs.count, work, value);
    agenda::keep_heights(work, value, top);
    let one = crate::order::without(work, top, agenda.deferred, r.first);
    let both = crate::order::without(work, one.top, one.list, r.second);
    let at = both.top;
    let goal = agenda::match_goal(pairs.first, value, value, agenda.easy);
    agenda::put_goal(work, at, goal);
    Decision::Next(Agenda {
        top: at + GOAL,
        easy: at,
        deferred: both.list,
    })
}
