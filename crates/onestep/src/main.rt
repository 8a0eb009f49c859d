// The program: see `program`. The files kept beside it are document 01's case 1.
//
// It promises that it is safe and ends, and rests on `program`.

#![tactic(auto)]

fn main(rt: HostRuntime) {
    program::run(&rt, b"pattern.rec", b"recipe.rec");
}
