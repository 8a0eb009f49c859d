// Goals to build.
//
// Such a goal asks for a head, an abstraction, that comes to the target with an argument put in: its bodies are the target with some copies
// of the argument replaced. The crate plans and writes bodies, and tells whether a given head solves the goal. It promises that the agenda
// it leaves has exactly the assignments of the one before, or of the body that it is for; or that there are none. It rests on `agenda` for
// goals, on `abstractions` for bodies, on `instances` for the test of a given head, and on `matching` for the mathematics.
//
// Where the argument uses a local that the head lacks, the one body left is written with every choice made.

#![tactic(auto)]

ghost use Rattle.std.specs.Prelude.{◌≤◌, length};
ghost use Rattle.agenda.specs.State.{Ready, relinking};
ghost use Rattle.builds.specs.Choices.{ChosenBody, Planned};
ghost use Rattle.agenda.specs.Moves.{Branched};
ghost use Rattle.builds.specs.Builds.{Builds, AnyChosen, Pushes, StoredPushed, Solving, Solved};

use agenda::{Agenda, HEIGHT_BYTES, Plan, StoredGoal, TARGET_BYTES};
use assignments::Entry;
use records::{Ask, Kind, RECORD, VALUE_RECORDS, VARIABLES};

// Writes the abstraction over the body as a target with its heights from the top on, and the goal that the part of `goal` sweeps to it;
// `goal` itself is dropped.
pub fn push_abstraction(work: &mut [u8], agenda: Agenda, goal: StoredGoal, body: &[u8]) -> Agenda
    requires { Pushes work.old agenda goal body.now }
    ensures { StoredPushed work.old agenda goal body.now work.new result }
{
    let target = agenda.top + HEIGHT_BYTES;
    records::put_record(work, target, Kind::ABSTRACTION, 0);
    copying::copy_into(body, work, target + RECORD);
    let easy = target + RECORD + body.len();
    agenda::keep_heights(work, target, easy);
    let head = agenda::match_goal(goal.part, target, target, agenda.easy);
    agenda::put_goal(work, easy, head);
    Agenda {
        top: easy + agenda::GOAL,
        easy,
        deferred: goal.next,
    }
}

// Whether one of the first n choices is made.
fn any_chosen(chosen: &[u8], n: usize) -> bool
    requires { n ≤ length chosen.now }
    ensures { AnyChosen chosen.now n result }
{
    chosen[..n].iter().any(|choice| *choice != 0)
}

// The goal with the body of the chosen copies: what its head then has to sweep to is written at the top. No head sweeps to an abstraction
// that is a redex, and an abstraction that doesn't use its local belongs to another goal: it uses it where a choice is made. None, if no
// assignment satisfies the goal.
pub fn body(
    pattern: &[u8],
    work: &mut [u8],
    agenda: Agenda,
    entries: [Entry; VARIABLES],
    chosen: [u8; VALUE_RECORDS],
) -> Option<Agenda>
    requires { Ready relinking pattern.now work.old agenda entries × Builds work.old agenda }
    ensures { Branched pattern.now work.old agenda entries (ChosenBody chosen) work.new result }
{
    let goal = agenda::goal_at(work, agenda.deferred);
    let target = goal.target;
    let argument = goal.argument;
    let mut b = [0u8; TARGET_BYTES];
    let built = abstractions::body_into(
        &work[target..],
        0,
        &work[argument..],
        &chosen,
        0,
        &mut b,
        0,
    );
    let n = built.end;
    if !any_chosen(&chosen, built.k) {
        return None;
    }
    if records::is_eta(&b[0..n]) {
        return None;
    }
    Some(push_abstraction(work, agenda, goal, &b[0..n]))
}

// Whether `head` is an abstraction that uses its local and comes to the target with the argument put in.
pub fn is_solved(head: &[u8], argument: &[u8], target: &[u8]) -> bool
    requires { Solving head.now argument.now target.now }
    ensures { Solved head.now argument.now target.now result }
{
    if head[0] != Kind::ABSTRACTION.code {
        return false;
    }
    let body = &head[RECORD..];
    if records::ask_part(body, Ask::Other, 0).is_some() {
        return false;
    }
    instances::is_substituted(body, 0, argument, target).is_some()
}

// What the goal comes to. A swept head uses no local that the head doesn't use: where the argument uses such a one no body keeps a copy of
// the argument, so that one body is left. Any other head has a body for each choice among the copies.
pub fn plan(pattern: &[u8], work: &mut [u8], agenda: Agenda, entries: [Entry; VARIABLES]) -> Plan
    requires { Ready relinking pattern.now work.old agenda entries × Builds work.old agenda }
    ensures { Planned pattern.now work.old agenda entries work.new result }
{
    let goal = agenda::goal_at(work, agenda.deferred);
    let part = goal.part;
    let argument = goal.argument;
    if agenda::locals::lacks_local(&pattern[part..], &work[argument..]) {
        let every = [1u8; VALUE_RECORDS];
        return body(pattern, work, agenda, entries, every).map_or(Plan::Failed, Plan::Next);
    }
    let target = goal.target;
    let counted = abstractions::copies(&work[target..], 0, &work[argument..]);
    Plan::Bodies(counted.count)
}
