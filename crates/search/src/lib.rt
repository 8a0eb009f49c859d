// The search: every match of a pattern and a recipe, line by line.
//
// Easy goals are taken first. When none is left, two deferred goals that give the value of their variable become one easy goal. When there
// are no such two, the cheapest of those deferred is taken: what is known of its part decides it, or an application is taken in each of
// its ways in turn, a goal to build with each choice among the copies of its argument. The functions call each other in one cycle; each
// time it comes round there is less room above the agenda, or an earlier goal is the first of the easy ones, so that the search ends. The
// crate promises that the lines it has found are exactly the lines of some list that is sound, covers every assignment and names each
// once, for these goals and these entries, stored one after the other; or that such a list has more lines than the limit. It rests on
// `agenda` for goals, on `steps`, `ordering`, `deciding`, `alternatives` and `builds` for its steps, on `matching` for why the lines of
// alternatives make up the whole, and on `listing` for what becomes of a found line.
//
// A cut may always decline: functions that never refused, decided or joined a goal would meet their contracts, and the listing would be the
// same, later. What is promised is that what they refuse, decide or put in a goal's place is right. That the cuts are made at all is shown
// by `bench/run.sh --hard`, and not by a proof.

#![tactic(auto)]

ghost use Rattle.std.specs.Prelude.{◌≡◌, ◌<◌};
ghost use Rattle.agenda.specs.State.{Sat, relinking};
ghost use Rattle.arguments.specs.Ways.{Way};
ghost use Rattle.builds.specs.Choices.{Choices, ChosenBody};
ghost use Rattle.arguments.specs.Applications.{ApplicationDeferred, WaysCounted};
ghost use Rattle.builds.specs.Builds.{Builds};
ghost use Rattle.search.specs.Collected.{Collects, Collected};
ghost use Rattle.search.specs.Searched.{Begins, Searched};
ghost use Rattle.search.specs.Choosing.{Choosing};

use agenda::{Agenda, Decision, GOAL, HEIGHT_BYTES, Plan, Step, StoredGoal, Ways};
use assignments::Entry;
use listing::Tally;
use records::{VALUE_RECORDS, VARIABLES};

// Takes the first easy goal, and searches on.
#[cycle(search)]
fn advance(
    pattern: &[u8],
    work: &mut [u8],
    agenda: Agenda,
    entries: [Entry; VARIABLES],
    limit: usize,
    lines: &mut [u8],
    values: &mut [u8],
    done: Tally,
) -> Tally
    requires { Begins 0 pattern.now work.old agenda entries limit lines.old values.old done × (0 < agenda.easy) }
    ensures { Searched 0 Sat pattern.now work.old agenda entries limit lines.old
        values.old done work.new lines.new values.new result }
{
    match steps::step(pattern, work, agenda, entries) {
        Step::Failed => done,
        Step::Left(next) => search(pattern, work, next, entries, limit, lines, values, done),
        Step::Assign(binding) => {
            let next = binding.agenda;
            let mut b = entries;
            b[binding.variable] = Entry::Assigned(binding.span);
            search(pattern, work, next, b, limit, lines, values, done)
        }
    }
}

// One way of the first deferred goal, an application.
#[cycle(search)]
fn attempt(
    pattern: &[u8],
    work: &mut [u8],
    agenda: Agenda,
    entries: [Entry; VARIABLES],
    i: usize,
    ways: Ways,
    limit: usize,
    lines: &mut [u8],
    values: &mut [u8],
    done: Tally,
) -> Tally
    requires { Begins relinking pattern.now work.old agenda entries limit lines.old values.old done
        × ApplicationDeferred pattern.now work.old agenda entries × WaysCounted pattern.now work.old agenda entries ways
        × (i < ways.count) }
    ensures { Searched relinking (Way i) pattern.now work.old agenda entries limit lines.old
        values.old done work.new lines.new values.new result }
{
    let Some(next) = alternatives::way(pattern, work, agenda, entries, i, ways) else {
        return done;
    };
    search(pattern, work, next, entries, limit, lines, values, done)
}

// All ways of the first deferred goal, an application, in turn; none behind the limit.
#[cycle(search)]
fn flexible(
    pattern: &[u8],
    work: &mut [u8],
    agenda: Agenda,
    entries: [Entry; VARIABLES],
    limit: usize,
    lines: &mut [u8],
    values: &mut [u8],
    done: Tally,
) -> Tally
    requires { Begins relinking pattern.now work.old agenda entries limit lines.old values.old done
        × ApplicationDeferred pattern.now work.old agenda entries }
    ensures { Searched relinking Sat pattern.now work.old agenda entries limit lines.old
        values.old done work.new lines.new values.new result }
{
    let ways = alternatives::ways(pattern, work, agenda, entries);
    let mut found = done;
    for i in 0..ways.count {
        if limit < found.lines {
            return found;
        }
        found = attempt(
            pattern, work, agenda, entries, i, ways, limit, lines, values, found,
        );
    }
    found
}

// The body of one choice at each copy.
#[cycle(search)]
fn attempt_body(
    pattern: &[u8],
    work: &mut [u8],
    agenda: Agenda,
    entries: [Entry; VARIABLES],
    chosen: [u8; VALUE_RECORDS],
    limit: usize,
    lines: &mut [u8],
    values: &mut [u8],
    done: Tally,
) -> Tally
    requires { Begins relinking pattern.now work.old agenda entries limit lines.old values.old done × Builds work.old agenda }
    ensures { Searched relinking (ChosenBody chosen) pattern.now work.old agenda entries limit
        lines.old values.old done work.new lines.new values.new result }
{
    let Some(next) = builds::body(pattern, work, agenda, entries, chosen) else {
        return done;
    };
    search(pattern, work, next, entries, limit, lines, values, done)
}

// All bodies with the choices made for the first k copies of the argument, of n: the next one is replaced, and then it stays.
#[cycle(search)]
fn bodies(
    pattern: &[u8],
    work: &mut [u8],
    agenda: Agenda,
    entries: [Entry; VARIABLES],
    chosen: [u8; VALUE_RECORDS],
    k: usize,
    n: usize,
    limit: usize,
    lines: &mut [u8],
    values: &mut [u8],
    done: Tally,
) -> Tally
    requires { Begins relinking pattern.now work.old agenda entries limit lines.old values.old done × Builds work.old agenda
        × Choosing pattern.now work.old agenda entries chosen k n }
    ensures { Searched relinking (Choices chosen k) pattern.now work.old agenda entries limit
        lines.old values.old done work.new lines.new values.new result }
{
    if n <= k {
        return attempt_body(
            pattern, work, agenda, entries, chosen, limit, lines, values, done,
        );
    }
    let mut replaced = chosen;
    replaced[k] = 1;
    let found = bodies(
        pattern,
        work,
        agenda,
        entries,
        replaced,
        k + 1,
        n,
        limit,
        lines,
        values,
        done,
    );
    if limit < found.lines {
        return found;
    }
    let mut kept = chosen;
    kept[k] = 0;
    bodies(
        pattern,
        work,
        agenda,
        entries,
        kept,
        k + 1,
        n,
        limit,
        lines,
        values,
        found,
    )
}

// The first deferred goal is one to build.
#[cycle(search)]
fn build(
    pattern: &[u8],
    work: &mut [u8],
    agenda: Agenda,
    entries: [Entry; VARIABLES],
    limit: usize,
    lines: &mut [u8],
    values: &mut [u8],
    done: Tally,
) -> Tally
    requires { Begins relinking pattern.now work.old agenda entries limit lines.old values.old done × Builds work.old agenda }
    ensures { Searched relinking Sat pattern.now work.old agenda entries limit lines.old
        values.old done work.new lines.new values.new result }
{
    match builds::plan(pattern, work, agenda, entries) {
        Plan::Failed => done,
        Plan::Next(next) => search(pattern, work, next, entries, limit, lines, values, done),
        Plan::Bodies(n) => {
            let chosen = [0u8; VALUE_RECORDS];
            bodies(
                pattern, work, agenda, entries, chosen, 0, n, limit, lines, values, done,
            )
        }
    }
}

// Goes through the alternatives of the first deferred goal.
#[cycle(search)]
fn branch(
    pattern: &[u8],
    work: &mut [u8],
    agenda: Agenda,
    entries: [Entry; VARIABLES],
    limit: usize,
    lines: &mut [u8],
    values: &mut [u8],
    done: Tally,
) -> Tally
    requires { Begins relinking pattern.now work.old agenda entries limit lines.old values.old done × (agenda.easy ≡ 0)
        × (0 < agenda.deferred) }
    ensures { Searched relinking Sat pattern.now work.old agenda entries limit lines.old
        values.old done work.new lines.new values.new result }
{
    let goal = agenda::goal_at(work, agenda.deferred);
    if goal.argument == 0 {
        return flexible(pattern, work, agenda, entries, limit, lines, values, done);
    }
    build(pattern, work, agenda, entries, limit, lines, values, done)
}

// The cheapest of the deferred goals: what is known of its part decides it, or it branches.
#[cycle(search)]
fn cheapest(
    pattern: &[u8],
    work: &mut [u8],
    agenda: Agenda,
    entries: [Entry; VARIABLES],
    limit: usize,
    lines: &mut [u8],
    values: &mut [u8],
    done: Tally,
) -> Tally
    requires { Begins 0 pattern.now work.old agenda entries limit lines.old values.old done × (agenda.easy ≡ 0)
        × (0 < agenda.deferred) }
    ensures { Searched 0 Sat pattern.now work.old agenda entries limit lines.old
        values.old done work.new lines.new values.new result }
{
    let t = ordering::order::bring_forward(pattern, work, agenda, entries);
    match deciding::decide(pattern, work, t, entries) {
        Decision::Failed => done,
        Decision::Next(next) => search(pattern, work, next, entries, limit, lines, values, done),
        Decision::Open => branch(pattern, work, t, entries, limit, lines, values, done),
    }
}

// No easy goal is left: two goals of one variable give its value, or the cheapest goal is taken.
#[cycle(search)]
fn next_deferred(
    pattern: &[u8],
    work: &mut [u8],
    agenda: Agenda,
    entries: [Entry; VARIABLES],
    limit: usize,
    lines: &mut [u8],
    values: &mut [u8],
    done: Tally,
) -> Tally
    requires { Begins 0 pattern.now work.old agenda entries limit lines.old values.old done × (agenda.easy ≡ 0)
        × (0 < agenda.deferred) }
    ensures { Searched 0 Sat pattern.now work.old agenda entries limit lines.old
        values.old done work.new lines.new values.new result }
{
    match ordering::repeated::force(pattern, work, agenda, entries) {
        Decision::Failed => done,
        Decision::Next(next) => search(pattern, work, next, entries, limit, lines, values, done),
        Decision::Open => cheapest(pattern, work, agenda, entries, limit, lines, values, done),
    }
}

// All lines for the goals and the entries, counted from `done` on and written where they fit; it stops when there are more than `limit`.
#[cycle(search)]
pub fn search(
    pattern: &[u8],
    work: &mut [u8],
    agenda: Agenda,
    entries: [Entry; VARIABLES],
    limit: usize,
    lines: &mut [u8],
    values: &mut [u8],
    done: Tally,
) -> Tally
    requires { Begins 0 pattern.now work.old agenda entries limit lines.old values.old done }
    ensures { Searched 0 Sat pattern.now work.old agenda entries limit lines.old
        values.old done work.new lines.new values.new result }
{
    if agenda.easy != 0 {
        return advance(pattern, work, agenda, entries, limit, lines, values, done);
    }
    if agenda.deferred != 0 {
        return next_deferred(pattern, work, agenda, entries, limit, lines, values, done);
    }
    listing::found(work, entries, lines, values, done)
}

// All matches of the pattern and the recipe: the recipe is the first target, at the start of the work area behind its heights.
pub fn collect(
    pattern: &[u8],
    recipe: &[u8],
    limit: usize,
    lines: &mut [u8],
    values: &mut [u8],
    work: &mut [u8],
) -> Tally
    requires { Collects pattern.now recipe.now limit lines.old values.old work.old }
    ensures { Collected pattern.now recipe.now limit lines.old values.old
        lines.new values.new result }
{
    copying::copy_into(recipe, work, HEIGHT_BYTES);
    let first = HEIGHT_BYTES + recipe.len();
    agenda::keep_heights(work, HEIGHT_BYTES, first);
    let goal = StoredGoal {
        part: 0,
        origin: HEIGHT_BYTES,
        target: HEIGHT_BYTES,
        next: 0,
        argument: 0,
    };
    agenda::put_goal(work, first, goal);
    let agenda = Agenda {
        top: first + GOAL,
        easy: first,
        deferred: 0,
    };
    let open = [Entry::Open; VARIABLES];
    let none = Tally {
        lines: 0,
        records: 0,
    };
    search(pattern, work, agenda, open, limit, lines, values, none)
}
