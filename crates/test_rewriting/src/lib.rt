// Check, sweep and rewrite run on a case of `test_answers`, and their answers printed.
//
// It promises that it is safe and ends; `rewriting` promises the answers. It rests on `rewriting`, on `notation` to read the case, and on
// `test_report` to print what came of it.

#![tactic(auto)]

use notation::{build_field, bytes_in, field, lend_field, say, within};
use records::TABLE_BYTES;
use refusals::Refusal;
use test_report::{LENT, SHORT, filled, marked, say_operation, say_refused, say_work, say_written};

// Which fields an operation's cases have these tables in; check has no output.
#[derive(Clone, Copy)]
struct Fields {
    line: usize,
    values: usize,
    output: Option<usize>,
    work: usize,
}

// The tables of a case that are read. The first three are the operation's own, in its order, as far as it has so many.
#[derive(Clone, Copy)]
struct Tables<'a> {
    first: &'a [u8],
    second: &'a [u8],
    third: &'a [u8],
    line: &'a [u8],
    values: &'a [u8],
}

fn say_check(answer: Result<bool, Refusal>) {
    match answer {
        Ok(true) => say(b"yes"),
        Ok(false) => say(b"no"),
        Err(c) => say_refused(c),
    }
}

fn run_check(t: Tables<'_>, _: &mut [u8], work: &mut [u8]) {
    say_check(rewriting::check(t.first, t.second, t.line, t.values, work));
}

fn run_sweep(t: Tables<'_>, out: &mut [u8], work: &mut [u8]) {
    let answer = rewriting::sweep(t.first, t.line, t.values, out, work);
    say_written(answer, out);
}

fn run_rewrite(t: Tables<'_>, out: &mut [u8], work: &mut [u8]) {
    let answer = rewriting::rewrite(t.first, t.second, t.third, t.line, t.values, out, work);
    say_written(answer, out);
}

// The tables of a case are made in two functions, as a proof takes longer the more of them one function has.
fn operate_in<F: FnOnce(Tables<'_>, &mut [u8], &mut [u8])>(
    case: &[u8],
    fields: Fields,
    tables: Tables<'_>,
    run: F,
)
    requires { F.IsAlwaysCallable run }
{
    let mut o = marked();
    let mut w = marked();
    let output = fields.output.map_or(0, |k| bytes_in(field(case, k), 0));
    let end = within(output, &o);
    let work = lend_field(case, fields.work, TABLE_BYTES, &mut w);
    run(tables, &mut o[..end], work);
    say_work(work);
}

fn operate_on<F: FnOnce(Tables<'_>, &mut [u8], &mut [u8])>(case: &[u8], fields: Fields, run: F)
    requires { F.IsAlwaysCallable run }
{
    let mut p = filled::<SHORT>(0);
    let mut q = filled::<SHORT>(0);
    let mut r = filled::<SHORT>(0);
    let mut l = filled::<SHORT>(0);
    let mut v = filled::<LENT>(0);
    say_operation(case);
    let tables = Tables {
        first: build_field(case, 2, &mut p),
        second: build_field(case, 3, &mut q),
        third: build_field(case, 4, &mut r),
        line: build_field(case, fields.line, &mut l),
        values: build_field(case, fields.values, &mut v),
    };
    operate_in(case, fields, tables, run);
}

pub fn check(case: &[u8]) {
    let fields = Fields {
        line: 4,
        values: 5,
        output: None,
        work: 6,
    };
    operate_on(case, fields, run_check);
}

pub fn sweep(case: &[u8]) {
    let fields = Fields {
        line: 3,
        values: 4,
        output: Some(5),
        work: 6,
    };
    operate_on(case, fields, run_sweep);
}

pub fn rewrite(case: &[u8]) {
    let fields = Fields {
        line: 5,
        values: 6,
        output: Some(7),
        work: 8,
    };
    operate_on(case, fields, run_rewrite);
}
