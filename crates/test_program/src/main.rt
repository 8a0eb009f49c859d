// The program on cases, each a folder of `data`: its name and what the program prints.
//
// Every output is stored beside it. It promises that it is safe and ends, as `program` does, on which it rests; and on `notation` to print
// the names.

#![tactic(auto)]

use notation::say_heading;
use program::run;
use std::rt::Files;

fn run_case<R: Files>(files: &R, name: &[u8], pattern: &[u8], recipe: &[u8]) {
    say_heading(name);
    run(files, pattern, recipe);
}

fn main(rt: HostRuntime) {
    // Document 01's case 2, which has no match.
    run_case(
        &rt,
        b"no_match:",
        b"no_match/pattern.rec",
        b"no_match/recipe.rec",
    );

    // A pattern that ignores its variable: `@ \ k1 p0` against `k1`. Its one line assigns nothing.
    run_case(
        &rt,
        b"open_line:",
        b"open_line/pattern.rec",
        b"open_line/recipe.rec",
    );

    // A pattern of 33 records, the first 32 of which are a term that matches: a file that is too long is refused and not cut.
    run_case(
        &rt,
        b"long_pattern:",
        b"long_pattern/pattern.rec",
        b"long_pattern/recipe.rec",
    );

    // A recipe of 97 records, the first 96 of which are a term.
    run_case(
        &rt,
        b"long_recipe:",
        b"long_recipe/pattern.rec",
        b"long_recipe/recipe.rec",
    );

    // There is no `pattern.rec`: a file that won't open counts as empty.
    run_case(
        &rt,
        b"missing_file:",
        b"missing_file/pattern.rec",
        b"missing_file/recipe.rec",
    );

    // `@ p0 k65536` against `@ @ k16777215 k0 k65536`: constants of 24 bits, two of which differ in the top eight alone.
    run_case(
        &rt,
        b"large_constants:",
        b"large_constants/pattern.rec",
        b"large_constants/recipe.rec",
    );

    // `@ p0 k1` against `k2` applied to `k1` eight times: 256 lines, more than list's first search has room for, so that it searches again.
    run_case(
        &rt,
        b"long_listing:",
        b"long_listing/pattern.rec",
        b"long_listing/recipe.rec",
    );
}
