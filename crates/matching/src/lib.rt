// The theory of one-step matching: what a pattern can match, and that a listing of it exists and is the only one.
//
// The crate has no code. `specs/` has document 01's table of cases, and what the contracts of the search cite: goals, lists, the ways and
// bodies of an application, skeletons, reducts; `proofs/` shows one step of matching, that a plain lister's sorted lines are a full
// listing, that there is no other, how long its values are, and what a search may skip. It rests on `terms`.
//
// Document 01 words a listing over assignments of n entries, and so do the definitions; the theory uses total functions from variables to
// values, and `Partial` shows that the two say the same. A total assignment in `specs/` would be one more thing to believe. `Lists` says of
// any predicate of assignments that certain lines list it, and its laws (same, none, one, or, some, and) build the proof of any lister: a
// search in another order, or with other cuts, uses the same laws. No promise of an operation rests on `specs/` here: contracts of the
// search do, and theorems and must-fail edits of this crate. The plain lister is a device, and stands in `proofs/`.

#![tactic(auto)]
