// The heights of a term's parts: what is kept of their highest loose locals, to tell later which of them are closed.
//
// Numbered from outside, the highest loose local of an application is the higher of its two parts'; of an abstraction it is one less than
// its body's, or none where that is its own local; of a local it is its number. A byte keeps it, 0 for none and else one more than the
// number: that is the part's height, so that a part below d binders is closed exactly if its height is at most d. The crate writes the
// heights of all parts of a term, a byte for each record, and promises that they are those of the highest loose locals, which are what a
// full walk finds. It rests on `records` for single records.
//
// The records are passed once, the last one first. What stands behind a record is a row of parts, one behind another, and the first ones of
// them are its own. Beside the heights that are written, those of the row are kept: a record takes those of its parts from the front and
// puts its own there. The first of the row is held in a variable, so that no record has to wait until the one behind it is stored.

#![tactic(auto)]

ghost use Rattle.std.specs.Prelude.{◌≡◌, ◌+◌, ◌-◌, max, get_or};
ghost use Rattle.std.proofs.lemmas.List.Edits.{sets};
ghost use Rattle.terms.specs.Term.{Term};
ghost use Rattle.terms.specs.Table.{encode};
ghost use Rattle.records.specs.Record.{parts};
ghost use Rattle.heights.specs.Heights.{heights, HeightSource, RowBehind, HeightOf};

use records::{Kind, RECORD, VALUE_RECORDS};

// The higher of two heights.
fn higher(x: u8, y: u8) -> u8
    ensures { result ≡ max x y }
{
    x.max(y)
}

// The height of a part, and where the row then begins of which it is the first.
#[derive(Clone, Copy)]
struct Front {
    height: u8,
    first: usize,
}

// The height of the part whose first record is at byte `at`. The heights of the row behind that record stand from index `first` on, and
// `next` is the first of them.
fn height_at(s: &[u8], at: usize, next: u8, row: &[u8], first: usize) -> Front
    requires { RowBehind s.now at next row.now first }
    ensures { HeightOf s.now at result.height × (result.first ≡ first + parts (get_or s.now at 0) - 1) }
{
    let kind = s[at];
    if kind == Kind::APPLICATION.code {
        let argument = row[first + 1];
        return Front {
            height: higher(next, argument),
            first: first + 1,
        };
    }
    if kind == Kind::ABSTRACTION.code {
        return Front {
            height: next.saturating_sub(1),
            first,
        };
    }
    if kind == Kind::LOCAL.code {
        let number = records::number_at(s, at);
        return Front {
            height: (number + 1) as u8,
            first: first - 1,
        };
    }
    Front {
        height: 0,
        first: first - 1,
    }
}

// Writes the height of each part of the term s, a byte for each record.
pub fn heights_into(s: &[u8], out: &mut [u8; VALUE_RECORDS])
    requires { HeightSource s.now }
    ensures { (t : Term) → s.now ≡ encode t → out.new ≡ sets out.old 0 (heights t) }
{
    let mut row = [0u8; VALUE_RECORDS];
    let mut first = VALUE_RECORDS;
    let mut next = 0;
    for i in (0..s.len() / RECORD).rev() {
        let front = height_at(s, RECORD * i, next, &row, first);
        first = front.first;
        next = front.height;
        row[first] = next;
        out[i] = next;
    }
}
