// Random patterns and terms of a given number of records.

ghost use Rattle.std.specs.Prelude.{◌≤◌, length};

use crate::random::Random;
use notation::within;
use records::VARIABLES;
use test_pool::wide_constant;
use test_pool::writer::Writer;
use test_scan::scan::{Locals, Node};

// What a term is to have many of.
#[derive(Clone, Copy, PartialEq, Eq)]
pub enum Shape {
    // Nothing special.
    Plain,
    Beta,
    Eta,
    // Redexes of both kinds.
    Both,
    // The same variables.
    Repeated,
    Locals,
    // Each variable.
    All,
    // No variable at all: a recipe, though perhaps not a normal one.
    Ground,
}

impl Shape {
    // The shape of patterns that the file of the cases names by this number.
    pub fn numbered(number: usize) -> Shape {
        match number {
            1 => Shape::Beta,
            2 => Shape::Eta,
            3 => Shape::Both,
            4 => Shape::Repeated,
            5 => Shape::Locals,
            6 => Shape::All,
            7 => Shape::Ground,
            _ => Shape::Plain,
        }
    }
}

// How a part is made.
#[derive(Clone, Copy)]
enum Way {
    Abstraction,
    Application,
    BetaRedex,
    EtaRedex,
}

// A term that is being drawn: where it is written, its shape, and the next of all variables.
#[derive(Drop)]
struct Drawing<'a> {
    out: Writer<'a>,
    random: &'a mut Random,
    shape: Shape,
    next: usize,
}

// Puts a closed term of just `size` records, and gives its bytes. Where it has all variables, they start with `next`.
pub fn put_term(
    shape: Shape,
    size: usize,
    next: usize,
    random: &mut Random,
    out: &mut [u8],
) -> usize
    ensures { result ≤ length out.new }
{
    let mut drawing = Drawing {
        out: Writer::behind(0, out),
        random,
        shape,
        next,
    };
    drawing.put_part(size, Locals::NONE);
    let end = drawing.out.at;
    within(end, out)
}

// A local of a set, from `start` on if there is one.
fn local_from(locals: Locals, start: usize) -> usize {
    (start..64)
        .chain(0..start)
        .find(|n| locals.contains(*n))
        .unwrap_or(0)
}

// An application if a number that is drawn is below a bound, or else an abstraction.
fn application_or(d: usize, bound: usize) -> Way {
    if d < bound {
        return Way::Application;
    }
    Way::Abstraction
}

// A redex if a number that is drawn is below the bound of its kind, or else a part that is none.
fn redex_or(d: usize, beta: usize, eta: usize) -> Way {
    if d < beta {
        return Way::BetaRedex;
    }
    if d < eta {
        return Way::EtaRedex;
    }
    application_or(d, 5)
}

impl<'a> Drawing<'a> {
    // The way of a part of four or more records.
    fn way_of(&mut self, size: usize) -> Way {
        let d = self.random.draw(6);
        match self.shape {
            Shape::Beta => redex_or(d, 3, 0),
            Shape::Eta => redex_or(d, 0, 2),
            Shape::Both => redex_or(d, 2, 4),
            // All leaves are variables and each variable is to be one of them, so there are few abstractions.
            Shape::All if size % 2 == 0 => Way::Abstraction,
            Shape::All => Way::Application,
            Shape::Locals => application_or(d, 4),
            Shape::Plain | Shape::Repeated | Shape::Ground => application_or(d, 5),
        }
    }

    fn draw_variable(&mut self) -> Node {
        let bound = if self.shape == Shape::Repeated { 2 } else { 4 };
        Node::Variable(self.random.draw(bound))
    }

    // The next of all variables.
    fn next_variable(&mut self) -> Node {
        let v = self.next % VARIABLES;
        self.next = v + 3;
        Node::Variable(v)
    }

    fn draw_local(&mut self, locals: Locals) -> Node {
        Node::Local(local_from(locals, self.random.draw(4)))
    }

    fn draw_constant(&mut self) -> Node {
        Node::Constant(wide_constant(self.random.draw(3)))
    }

    fn draw_leaf(&mut self, locals: Locals) -> Node {
        if self.shape == Shape::All {
            return self.next_variable();
        }
        let d = self.random.draw(6);
        if d < 2 && !locals.is_empty() {
            return self.draw_local(locals);
        }
        if d < 5 && self.shape != Shape::Ground {
            return self.draw_variable();
        }
        self.draw_constant()
    }

    fn put_leaf(&mut self, locals: Locals) {
        let leaf = self.draw_leaf(locals);
        self.out.put_node(leaf);
    }

    // Puts a variable applied to a local.
    fn put_applied(&mut self, locals: Locals) {
        let head = self.draw_variable();
        let argument = self.draw_local(locals);
        self.out.put_node(Node::Application);
        self.out.put_node(head);
        self.out.put_node(argument);
    }

    // Puts a part of one to three records: a leaf, an abstraction over one, or one applied to another.
    fn put_small(&mut self, size: usize, locals: Locals) {
        match size {
            0 | 1 => self.put_leaf(locals),
            2 => {
                self.out.put_node(Node::Abstraction);
                self.put_leaf(locals.under());
            }
            _ if self.shape == Shape::Locals && !locals.is_empty() => self.put_applied(locals),
            _ => {
                self.out.put_node(Node::Application);
                self.put_leaf(locals);
                self.put_leaf(locals);
            }
        }
    }

    // Puts a part of just `size` records, whose loose locals are in the set.
    fn put_part(&mut self, size: usize, locals: Locals) {
        if size < 4 {
            return self.put_small(size, locals);
        }
        match self.way_of(size) {
            Way::Abstraction => {
                self.out.put_node(Node::Abstraction);
                self.put_part(size - 1, locals.under());
            }
            Way::Application => {
                let first = 1 + self.random.draw(size - 2);
                self.out.put_node(Node::Application);
                self.put_part(first, locals);
                self.put_part(size - 1 - first, locals);
            }
            Way::BetaRedex => {
                let first = 1 + self.random.draw(size - 3);
                self.out.put_node(Node::Application);
                self.out.put_node(Node::Abstraction);
                self.put_part(first, locals.under());
                self.put_part(size - 2 - first, locals);
            }
            Way::EtaRedex => {
                self.out.put_node(Node::Abstraction);
                self.out.put_node(Node::Application);
                self.put_part(size - 3, locals.past());
                self.out.put_node(Node::Local(0));
            }
        }
    }
}
