// Which deferred goal is next.
//
// Deferred goals are branched on, so the one with the fewest alternatives comes first, and where one variable is applied to constants in
// two of them its value is read off both, without branching. The crate promises that the goals stay the same, or that the agenda it leaves
// has exactly their assignments, or that there are none. It rests on `agenda` for goals, on `deciding` for what is known of them, on
// `abstractions` to count copies, on `joins` for two goals of one variable, and on `matching` for why they leave one value.
//
// Which goal is cheapest is a guess, and no promise speaks of it: one of the goals is brought to the front and none is lost, so that the
// order may be changed with no proof but its own. It was chosen by measuring random cases of full size: a goal without open variables
// first, then the fewest parts of the target that an application's argument may sweep to, a body of a goal to build counting for four of
// these.

#![tactic(auto)]

pub mod order;
pub mod repeated;
