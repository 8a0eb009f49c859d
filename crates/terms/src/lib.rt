// What a reader must believe: terms, their tables, the sweep, sweeping until normal, assignments, lines and the full listing, as documents
// 01 and 02 have them.
//
// The crate has no code. `specs/` states the definitions that every contract cites, each beside the sentence of the document that it
// renders; `proofs/` has their basic laws. It rests on nothing but the kit.
//
// The laws of the sweep (what it leaves behind, rigid heads, loose locals, sweeping until normal) stand here and not in `matching`, beside
// the definitions that they are about, because a must-fail edit of a definition is tried against the proofs of its own crate. `preorder`
// is the writing order both of bytes and of the records by which values compare, so that a kind's number stands once. The causes of
// refusal are rows of a number and a condition, so that "given when its cause holds and no earlier one does" is said once for all
// operations. `Figures` has each figure of the documents; theorems about full listings and the table of cases are over the number of
// variables, and the table is computed at 8 and at 16. `OldForm` is cited by no contract: it states what document 02 asks of tables from
// before constants had 24 bits. The decision that `Term` derives has to stand at its declaration; nothing in `specs/` uses it.
#![tactic(auto)]
