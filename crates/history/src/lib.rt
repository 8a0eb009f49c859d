// The law of the shelf: what any calls give, one after the other, from a new, empty shelf.
//
// The crate has no code. `specs/Law` says how each call is answered after the calls before it, by these and their answers alone, and what
// it is for calls to be made one after the other, each handed what the one before left and each under its operation's contract;
// `proofs/Law` shows that then every call is answered so. It rests on the contracts of `shelf`.

#![tactic(auto)]
