// A table that is filled from one of its bytes on, as far as there is room.

ghost use Rattle.std.specs.Prelude.{◌≤◌, length};

use notation::{put_number, put_record, within};
use records::Kind;
use test_scan::scan::Node;

#[derive(Drop)]
pub struct Writer<'a> {
    room: &'a mut [u8],
    pub at: usize,
    ghost within: { at ≤ length room.now },
}

impl<'a> Writer<'a> {
    // A writer behind the first `at` bytes of a table.
    pub fn behind(at: usize, room: &'a mut [u8]) -> Writer<'a> {
        let at = within(at, room);
        Writer { room, at }
    }

    // The table up to where it is filled.
    pub fn written(&self) -> &[u8] {
        &self.room[..self.at]
    }

    // Puts a record with the three low bytes of its number.
    fn put_record(&mut self, kind: Kind, number: usize) {
        self.at = put_record(self.room, self.at, kind.code, number);
    }

    pub fn put_node(&mut self, node: Node) {
        match node {
            Node::Application => self.put_record(Kind::APPLICATION, 0),
            Node::Abstraction => self.put_record(Kind::ABSTRACTION, 0),
            Node::Local(n) => self.put_record(Kind::LOCAL, n),
            Node::Constant(n) => self.put_record(Kind::CONSTANT, n),
            Node::Variable(n) => self.put_record(Kind::VARIABLE, n),
        }
    }

    pub fn put_entry(&mut self, first: usize, count: usize) {
        let middle = put_number(self.room, self.at, first);
        self.at = put_number(self.room, middle, count);
    }

    // Puts bytes, if there is room for all of them.
    pub fn put_bytes(&mut self, bytes: &[u8]) {
        let end = self.at + bytes.len();
        if end <= self.room.len() {
            self.room[self.at..end].copy_from_slice(bytes);
            self.at = end;
        }
    }
}
