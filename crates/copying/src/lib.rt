// Bytes copied, moved and compared.
//
// What many layers need of bytes: a table copied into another one, bytes of a table moved within it, and two tables compared.
// The crate promises that nothing but the copied or moved bytes changes, where the two places of a move may overlap, and that the answer
// says whether the tables are equal. It rests on nothing.

#![tactic(auto)]

ghost use Rattle.std.specs.Prelude.{◌≡◌, ◌+◌, ◌≤◌, length};
ghost use Rattle.std.proofs.lemmas.List.Edits.{sets};
ghost use Rattle.copying.specs.Equality.{Same};
ghost use Rattle.copying.specs.Moves.{moved, Movable};

// Whether two tables are equal.
pub fn same_bytes(a: &[u8], b: &[u8]) -> bool
    ensures { Same a.now b.now result }
{
    a == b
}

// Copies a table into out from byte o on.
pub fn copy_into(src: &[u8], out: &mut [u8], o: usize)
    requires { o + length src.now ≤ length out.old }
    ensures { out.new ≡ sets out.old o src.now }
{
    // Byte by byte: std's `copy_from_slice` calls `memmove`, which a program that links the static library would have to bring.
    for i in 0..src.len() {
        out[o + i] = src[i];
    }
}

// Moves n bytes of a table from `from` to `to`, where the two places may overlap.
pub fn move_bytes(t: &mut [u8], from: usize, n: usize, to: usize)
    requires { Movable t.old from n to }
    ensures { t.new ≡ moved t.old from n to }
{
    t.copy_within(from..from + n, to)
}
