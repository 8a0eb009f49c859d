// What is to be known of a term, read off its records: where a part ends, its redexes, its variables.
//
// This is written apart from `records` and `sweeping`, so that the program's own notion of a closed normal term is not the matcher's.

ghost use Rattle.std.specs.Prelude.{◌<◌, ◌/◌, length, IfSome};

use records::{Kind, RECORD, VARIABLES};

const APPLICATION: u8 = Kind::APPLICATION.code;

const ABSTRACTION: u8 = Kind::ABSTRACTION.code;

const LOCAL: u8 = Kind::LOCAL.code;

const CONSTANT: u8 = Kind::CONSTANT.code;

const VARIABLE: u8 = Kind::VARIABLE.code;

// A record of a term, read as what it stands for.
#[derive(Clone, Copy, PartialEq, Eq)]
pub enum Node {
    Application,
    Abstraction,
    Local(usize),
    Constant(usize),
    Variable(usize),
}

// What can be counted in a term: a redex, a variable applied to a local, or one variable.
#[derive(Clone, Copy, PartialEq, Eq)]
pub enum Feature {
    Beta,
    Eta,
    Applied,
    Variable(usize),
}

// A set of locals, bit n for local n.
#[derive(Clone, Copy, PartialEq, Eq)]
pub struct Locals {
    bits: u64,
}

// Sets of locals are kept below this bit, so that one more binder fits.
const HIGHEST: u64 = 4611686018427387904;

impl Locals {
    pub const NONE: Locals = Locals { bits: 0 };

    // Locals 1 to 31: every one but the innermost, in a pattern of at most 32 records.
    const OTHERS: Locals = Locals { bits: 4294967294 };

    pub fn is_empty(self) -> bool {
        self.bits == 0
    }

    // The same locals under one more binder, whose local is in the set.
    pub fn under(self) -> Locals {
        Locals {
            bits: self.bits % HIGHEST * 2 + 1,
        }
    }

    // The same under a binder whose local is not in the set.
    pub fn past(self) -> Locals {
        Locals {
            bits: self.bits % HIGHEST * 2,
        }
    }

    pub fn contains(self, local: usize) -> bool {
        local < 64 && self.bits >> local & 1 == 1
    }
}

// The bytes of a record, if it is there.
pub fn record_at(s: &[u8], i: usize) -> Option<[u8; RECORD]>
    ensures { IfSome result (λ _. i < length s.now / 4) }
{
    let (records, _) = s.as_chunks::<RECORD>();
    records.get(i).copied()
}

// What a record stands for, if it is there and has a kind.
pub fn node_at(s: &[u8], i: usize) -> Option<Node>
    ensures { IfSome result (λ _. i < length s.now / 4) }
{
    let [kind, top, high, low] = record_at(s, i)?;
    let number = usize::from(top) * 65536 + usize::from(high) * 256 + usize::from(low);
    match kind {
        APPLICATION => Some(Node::Application),
        ABSTRACTION => Some(Node::Abstraction),
        LOCAL => Some(Node::Local(number)),
        CONSTANT => Some(Node::Constant(number)),
        VARIABLE => Some(Node::Variable(number)),
        _ => None,
    }
}

// The kind of no record: the highest byte.
const NO_RECORD: u8 = 255;

// Where the part that starts at a record ends, if it is whole and each of its locals has its binder in it or is in the set. No part is
// deeper than `depth`. A record of another kind than the five, in a pattern that is to be refused, is a part as a constant is.
pub fn part_end(s: &[u8], at: usize, locals: Locals, depth: usize) -> Option<usize> {
    if depth == 0 {
        return None;
    }
    let [kind, _, _, _] = record_at(s, at)?;
    match node_at(s, at) {
        Some(Node::Application) => {
            let argument = part_end(s, at + 1, locals, depth - 1)?;
            part_end(s, argument, locals, depth - 1)
        }
        Some(Node::Abstraction) => part_end(s, at + 1, locals.under(), depth - 1),
        Some(Node::Local(n)) => locals.contains(n).then_some(at + 1),
        Some(Node::Constant(_) | Node::Variable(_)) => Some(at + 1),
        None => (kind != NO_RECORD).then_some(at + 1),
    }
}

// Whether an application whose head is an abstraction stands at a record.
fn is_beta(s: &[u8], i: usize) -> bool {
    match node_at(s, i) {
        Some(Node::Application) => node_at(s, i + 1) == Some(Node::Abstraction),
        _ => false,
    }
}

// Whether an abstraction over `M #0` stands at a record, of which M doesn't use that local.
fn is_eta(s: &[u8], i: usize) -> bool {
    match node_at(s, i) {
        Some(Node::Abstraction) => {
            node_at(s, i + 1) == Some(Node::Application)
                && part_end(s, i + 2, Locals::OTHERS, s.len()).is_some_and(|end| node_at(s, end)
                    == Some(Node::Local(0)))
        }
        _ => false,
    }
}

// Whether a variable applied to a local stands at a record.
fn is_applied(s: &[u8], i: usize) -> bool {
    match node_at(s, i) {
        Some(Node::Application) => {
            matches!(node_at(s, i + 1), Some(Node::Variable(_)))
                && matches!(node_at(s, i + 2), Some(Node::Local(_)))
        }
        _ => false,
    }
}

fn is_there(s: &[u8], i: usize, what: Feature) -> bool {
    match what {
        Feature::Beta => is_beta(s, i),
        Feature::Eta => is_eta(s, i),
        Feature::Applied => is_applied(s, i),
        Feature::Variable(v) => node_at(s, i) == Some(Node::Variable(v)),
    }
}

// In how many places of a term something is there.
pub fn count(s: &[u8], what: Feature) -> usize {
    (0..s.len() / RECORD)
        .filter(|i| is_there(s, *i, what))
        .count()
}

pub fn occurs(s: &[u8], v: usize) -> bool {
    0 < count(s, Feature::Variable(v))
}

// How many variables occur as often as that.
pub fn variables(s: &[u8], times: usize) -> usize {
    (0..VARIABLES)
        .filter(|v| times <= count(s, Feature::Variable(*v)))
        .count()
}

pub fn is_closed(s: &[u8]) -> bool {
    part_end(s, 0, Locals::NONE, s.len()) == Some(s.len() / RECORD)
}

pub fn is_normal(s: &[u8]) -> bool {
    count(s, Feature::Beta) == 0 && count(s, Feature::Eta) == 0
}

// Whether this is a table of one closed normal term, of which no record is a variable.
pub fn is_value(s: &[u8]) -> bool {
    is_closed(s) && is_normal(s) && variables(s, 1) == 0
}
