// One variable applied to constants in two places, and the term that its two targets come from.
//
// Two parts of a pattern apply one variable to as many constants each; where the constants of each pair differ and no pair stands there
// twice, the two targets determine what stands in the variable's body, or that nothing does. The crate finds the pairs of constants and
// writes the joined term. It promises that the joined term is the only body, or that there is none. It rests on `matching` for why that is
// so, on `records` and `substitution` for reading and writing terms, and on `sweeping` for the abstraction over a body, which contracts if
// it can. Each target is lent as a slice that begins with it; the pairs are given by their places in the pattern, since a goal has the
// place of their variable.
//
// Going over both targets together, a pair of the constants is the local, or one constant that both are, and any other record stays; so
// there is at most one value. Constants only: with other arguments two values may come to both targets (`k2`, `@ k2 k5` and `k3`, `@ k3 k5`
// have `#0` and `@ #1 k5` for the second), and an argument that holds open variables isn't known yet. Rules of planners that need it for
// more than constants would change that.

#![tactic(auto)]

pub mod joining;
pub mod pairs;
