// Examples, and groups of random cases: patterns and recipes that a case writes, or that are drawn from a seed, and each tried.
//
// It promises that it is safe and ends; what the trials find is counted. It rests on `notation` to read an example, on `test_cases`, which
// draws random cases, and on `test_trials`, which tries them.

#![tactic(auto)]

use notation::build_field;
use test_cases::{
    ENTRIES, RANDOM_RECIPE, SHORT, draw_pattern, draw_terms, example_terms, put_recipe,
};
use test_draw::generate::Shape;
use test_draw::random::Random;
use test_matches::Trial;
use test_pool::Terms;
use test_report::filled;
use test_totals::Totals;
use test_trials::try_case;

// Tries an example, whose second and third fields are the pattern and the recipe, and gives the count of its lines.
pub fn try_example(case: &[u8], all: Terms<'_>, totals: &mut Totals) -> Option<usize> {
    let mut p = filled::<SHORT>(0);
    let mut r = filled::<SHORT>(0);
    let pattern: &[u8] = build_field(case, 2, &mut p);
    let trial = Trial {
        pattern,
        recipe: build_field(case, 3, &mut r),
        terms: example_terms(pattern, all),
    };
    try_case(trial, totals)
}

// Tries a pattern with a random recipe.
fn try_recipe(
    pattern: &[u8],
    terms: Terms<'_>,
    all: Terms<'_>,
    random: &mut Random,
    totals: &mut Totals,
) {
    let mut r = filled::<RANDOM_RECIPE>(0);
    let end = put_recipe(pattern, terms, all, random, &mut r);
    let trial = Trial {
        pattern,
        recipe: &r[..end],
        terms,
    };
    try_case(trial, totals);
}

fn try_random(shape: Shape, random: &mut Random, all: Terms<'_>, totals: &mut Totals) {
    let mut p = filled::<SHORT>(0);
    let mut t = filled::<ENTRIES>(0);
    let pattern = draw_pattern(shape, random, &mut p);
    let terms = draw_terms(pattern, all, random, &mut t);
    try_recipe(pattern, terms, all, random, totals);
}

// Tries so many cases of a shape.
pub fn try_group(shape: Shape, seed: u64, cases: usize, all: Terms<'_>, totals: &mut Totals) {
    let mut random = Random::new(seed);
    for _ in 0..cases {
        try_random(shape, &mut random, all, totals);
    }
}
