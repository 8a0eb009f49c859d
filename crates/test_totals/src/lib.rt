// What the trials count, and how it is printed. The file of the examples names these totals by their numbers.
//
// It promises that it is safe and ends. It rests on `notation`, and on the kit's `io` to print numbers.

#![tactic(auto)]

ghost use Rattle.std.specs.Prelude.{◌<◌};

use notation::{STDOUT, say};

#[derive(Clone, Copy)]
pub enum Total {
    // What was compared.
    Cases,
    Assignments,
    Matches,
    Lines,
    OpenLines,
    NoLine,
    Fillings,
    TooLong,
    // Listings by the number of their refusal, which is below `REFUSALS`; 0 is for none.
    Refused(usize),
    // What the patterns had.
    WithBeta,
    WithEta,
    WithRepeated,
    WithApplied,
    WithAll,
    WithNone,
    // Disagreements.
    CheckAndSweep,
    InNoLine,
    InTwoLines,
    NoMatchInLine,
    Filling,
    Order,
    Layout,
    Behind,
    Area,
    Refusal,
    Number,
}

// The number of the first refusal's total, and how many there are.
const FIRST_REFUSAL: usize = 8;

pub const REFUSALS: usize = 16;

// The number of the first disagreement, and of all totals.
const FIRST_DISAGREEMENT: usize = 32;

pub const SIZE: usize = 43;

// Each total at its number.
#[derive(Clone, Copy)]
pub struct Totals {
    counts: [u64; SIZE],
}

impl Total {
    // The number by which the file of the examples names a total.
    fn number(self) -> usize
        ensures { result < 43 }
    {
        match self {
            Total::Cases => 0,
            Total::Assignments => 1,
            Total::Matches => 2,
            Total::Lines => 3,
            Total::OpenLines => 4,
            Total::NoLine => 5,
            Total::Fillings => 6,
            Total::TooLong => 7,
            Total::Refused(refusal) => FIRST_REFUSAL + refusal % REFUSALS,
            Total::WithBeta => 24,
            Total::WithEta => 25,
            Total::WithRepeated => 26,
            Total::WithApplied => 27,
            Total::WithAll => 28,
            Total::WithNone => 29,
            Total::CheckAndSweep => FIRST_DISAGREEMENT,
            Total::InNoLine => 33,
            Total::InTwoLines => 34,
            Total::NoMatchInLine => 35,
            Total::Filling => 36,
            Total::Order => 37,
            Total::Layout => 38,
            Total::Behind => 39,
            Total::Area => 40,
            Total::Refusal => 41,
            Total::Number => 42,
        }
    }
}

impl Totals {
    pub const NONE: Totals = Totals { counts: [0; SIZE] };

    pub fn tally(&mut self, what: Total) {
        let n = &mut self.counts[what.number()];
        *n = n.saturating_add(1);
    }

    pub fn tally_if(&mut self, what: Total, ok: bool) {
        if ok {
            self.tally(what);
        }
    }

    // Counts a count of lines, which is 0 if the listing is refused, or a refusal that is not the one expected.
    pub fn tally_expected(&mut self, count: Option<usize>, expected: usize, refusal: usize) {
        let refused = self.of(Total::Refused(refusal));
        self.tally_if(Total::Number, count.unwrap_or(0) != expected);
        self.tally_if(Total::Number, refused != 1);
    }

    // Adds the totals of some cases.
    pub fn add(&mut self, some: &Totals) {
        for (n, more) in self.counts.iter_mut().zip(&some.counts) {
            *n = n.saturating_add(*more);
        }
    }

    pub fn of(&self, what: Total) -> u64 {
        self.counts[what.number()]
    }

    pub fn disagreements(&self) -> u64 {
        self.counts[FIRST_DISAGREEMENT..]
            .iter()
            .fold(0, |n: u64, more| n.saturating_add(*more))
    }

    fn say_total(&self, text: &[u8], what: Total) {
        say_number(text, self.of(what));
    }

    // Prints what was compared, behind the number of lines.
    fn say_compared(&self) {
        self.say_total(b", of which open ", Total::OpenLines);
        self.say_total(b"; assignments ", Total::Assignments);
        self.say_total(b", matches ", Total::Matches);
        self.say_total(b"; fillings ", Total::Fillings);
        self.say_disagreements();
    }

    fn say_disagreements(&self) {
        say_number(b"; disagreements ", self.disagreements());
        say(b"\n");
    }

    pub fn say_example(&self, name: &[u8], refusal: usize) {
        say(name);
        if refusal == 0 {
            self.say_total(b": lines ", Total::Lines);
            self.say_compared();
        } else {
            say_number(b": refused ", refusal as u64);
            self.say_disagreements();
        }
    }

    // Prints an example whose refusal was expected by a number that a file gives, which is cut, as that of its total is.
    pub fn say_expected(&self, name: &[u8], expected: usize) {
        self.say_example(name, expected % REFUSALS);
    }

    pub fn say_group(&self, name: &[u8]) {
        say(name);
        self.say_total(b": cases ", Total::Cases);
        self.say_total(b"; lines ", Total::Lines);
        self.say_compared();
    }

    // Prints the total with a number, which is 0 if there is none.
    pub fn say_line(&self, name: &[u8], number: usize) {
        say(name);
        say_number(b": ", self.counts.get(number).copied().unwrap_or(0));
        say(b"\n");
    }
}

fn say_number(text: &[u8], n: u64) {
    say(text);
    io::print_decimal(STDOUT, n);
}
