// The agenda of a search: its goals in the work area.
//
// A goal is a part of the pattern and a target that it has to sweep to. Goals, targets and assigned values stand in the work area below
// `top`, where nothing is changed, so that all branches of a search share them and going back costs nothing. When a target is written the
// heights of all its parts are kept in front of it, so that one byte tells whether the part that a goal goes on with is closed.
// The crate reads and writes goals, keeps heights, and tells what the heads and locals of goals show. Its definitions say what an agenda
// means, what a step may make of it, and that the work area suffices; the steps themselves are the crates above it. It rests on `matching`
// for the mathematics, on `records`, `heights` and `shifting` for single terms, and on `assignments` for how entries hold a line.
//
// What the work area has yet to hold is a sum over the goals: a goal may still take up 2,000 bytes for each record of its part of the
// pattern, and each step takes what it writes from its goal's share. 32 records, a recipe of 96 with its heights and the first goal come to
// 64,560 of 65,536 bytes. The bound on targets, 160 records, and that on loose locals are stated for each goal by the size of its part.
// Longer patterns or recipes would change that. Types that several crates of the search share stand here: the kit wants no type whose name
// is a function's but for its capital.

#![tactic(auto)]

pub mod heads;
pub mod locals;

ghost use Rattle.std.specs.Prelude.{◌≡◌, ◌+◌, ◌-◌, ◌≤◌, length};
ghost use Rattle.std.proofs.lemmas.List.Edits.{sets};
ghost use Rattle.terms.specs.Term.{Term};
ghost use Rattle.records.specs.Parts.{Part};
ghost use Rattle.heights.specs.Heights.{heights};
ghost use Rattle.agenda.specs.State.{goal_bytes, height_bytes, heights_place, WrittenTarget};
ghost use Rattle.agenda.specs.Stored.{stored_bytes, StoredAt, StoredFits, stored_match, stored_build};

use assignments::Span;
use records::{RECORD, VALUE_RECORDS};
use sweeping::SWEPT_BYTES;

// Where a search stands in the work area: the first free byte, and where its two lists of goals begin (0: none is left). Easy goals have
// one way to go on; the others are deferred until no easy one is left.
#[derive(Clone, Copy)]
pub struct Agenda {
    pub top: usize,
    pub easy: usize,
    pub deferred: usize,
}

// A variable that takes a value, and the agenda then.
#[derive(Clone, Copy)]
pub struct Binding {
    pub variable: usize,
    pub span: Span,
    pub agenda: Agenda,
}

// What taking the first easy goal comes to: no assignment satisfies it, or the agenda that is left, perhaps with a variable assigned. Like
// the two enums below it has three outcomes, so that no Option says it.
#[derive(Clone, Copy)]
pub enum Step {
    Failed,
    Left(Agenda),
    Assign(Binding),
}

// What is known of the swept form of a part while some variables are open: a term with holes that it fits, as so many bytes.
#[derive(Clone, Copy)]
pub struct Skeleton {
    pub bytes: [u8; SWEPT_BYTES],
    pub length: usize,
}

// What is known of an application that was deferred, before its ways are gone through: how many there are, where its argument begins in the
// pattern, whether the argument has a rigid head, its skeleton, whether the application's head lacks a local of the target, and how many
// binders stand above each record of the target.
#[derive(Clone, Copy)]
pub struct Ways {
    pub count: usize,
    pub argument: usize,
    pub rigid: bool,
    pub skeleton: Skeleton,
    pub lacking: bool,
    pub depths: [u8; VALUE_RECORDS],
}

// What a test of deferred goals comes to: no assignment satisfies them, or the agenda that is left, or that the test doesn't apply.
#[derive(Clone, Copy)]
pub enum Decision {
    Failed,
    Next(Agenda),
    Open,
}

// What a goal to build comes to: as one alternative, or that the bodies are to be gone through, one for each choice among so many copies.
#[derive(Clone, Copy)]
pub enum Plan {
    Failed,
    Next(Agenda),
    Bodies(usize),
}

// A goal of a list: the part of the pattern, where the target begins that its own is a part of, its target, the next goal (0: none) and the
// argument's target (0: none). All are positions in bytes; what stands in the work area is record numbers, that of the target counted from
// the origin on.
//
// Without an argument the part has to sweep to the target. A goal to build has one: its part has to sweep to an abstraction that uses its
// local and comes to the target with the argument put in.
#[derive(Clone, Copy)]
pub struct StoredGoal {
    pub part: usize,
    pub origin: usize,
    pub target: usize,
    pub next: usize,
    pub argument: usize,
}

// The bytes of a goal in the work area.
pub const GOAL: usize = 8;

// The most bytes of a target.
pub const TARGET_BYTES: usize = RECORD * VALUE_RECORDS;

// The bytes in front of a target, where the heights of its parts are kept.
pub const HEIGHT_BYTES: usize = VALUE_RECORDS;

// The goal that a part sweeps to a target, which is one that begins at `origin` or a part of it.
pub fn match_goal(part: usize, origin: usize, target: usize, next: usize) -> StoredGoal
    ensures { result ≡ stored_match part origin target next }
{
    StoredGoal {
        part,
        origin,
        target,
        next,
        argument: 0,
    }
}

// The goal that a part builds a target from an argument's target.
pub fn build_goal(
    part: usize,
    origin: usize,
    target: usize,
    next: usize,
    argument: usize,
) -> StoredGoal
    ensures { result ≡ stored_build part origin target next argument }
{
    StoredGoal {
        part,
        origin,
        target,
        next,
        argument,
    }
}

// The goal at byte `at`.
pub fn goal_at(work: &[u8], at: usize) -> StoredGoal
    requires { at + goal_bytes ≤ length work.now }
    ensures is { StoredAt work.now at result }
    ensures fits { StoredFits result }
{
    let origin = records::word_at(work, at + 2) * RECORD;
    StoredGoal {
        part: records::wide(work[at]) * RECORD,
        origin,
        target: origin + records::wide(work[at + 1]) * RECORD,
        next: records::word_at(work, at + 4) * RECORD,
        argument: records::word_at(work, at + 6) * RECORD,
    }
}

// Writes a goal at byte `at`; nothing else changes.
pub fn put_goal(work: &mut [u8], at: usize, goal: StoredGoal)
    requires { (at + goal_bytes ≤ length work.old) × StoredFits goal }
    ensures { work.new ≡ sets work.old at (stored_bytes goal) }
{
    let part = goal.part / RECORD;
    let distance = (goal.target - goal.origin) / RECORD;
    let origin = goal.origin / RECORD;
    let next = goal.next / RECORD;
    let argument = goal.argument / RECORD;
    work[at] = (part % 256) as u8;
    work[at + 1] = (distance % 256) as u8;
    work[at + 2] = (origin / 256 % 256) as u8;
    work[at + 3] = (origin % 256) as u8;
    work[at + 4] = (next / 256 % 256) as u8;
    work[at + 5] = (next % 256) as u8;
    work[at + 6] = (argument / 256 % 256) as u8;
    work[at + 7] = (argument % 256) as u8;
}

// Keeps the heights of all parts of the target from byte `at` up to byte `end` in front of it, when its last record is written.
pub fn keep_heights(work: &mut [u8], at: usize, end: usize)
    requires { WrittenTarget work.old at end }
    ensures { (t : Term) → Part work.old at t
        → work.new ≡ sets work.old (at - height_bytes) (heights t) }
{
    let mut heights = [0u8; VALUE_RECORDS];
    heights::heights_into(&work[at..end], &mut heights);
    let n = (end - at) / RECORD;
    copying::copy_into(&heights[0..n], work, at - HEIGHT_BYTES);
}

// Where the heights of the goal's target are kept.
pub fn heights_place(goal: StoredGoal) -> usize
    requires { (height_bytes ≤ goal.origin) × StoredFits goal }
    ensures { result ≡ heights_place goal.origin goal.target }
{
    goal.origin - HEIGHT_BYTES + (goal.target - goal.origin) / RECORD
}
