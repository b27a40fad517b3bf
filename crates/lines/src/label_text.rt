ghost use Rattle.lines.specs.Text.{label_text, padded_from};
ghost use Rattle.std.specs.Prelude.{◌≡◌, ◌+◌, ◌≤◌, ◌++◌, length, take};

/// How many bytes a label is written with: a space, its digits, and spaces.
// A power of two, so that they are one store.
pub(crate) const LABEL_ROOM: usize = 4;

/// Each label after a space, and spaces after it.
static LABEL_TEXTS: [[u8; LABEL_ROOM]; 64] = [
    *b" 1  ", *b" 2  ", *b" 3  ", *b" 4  ", *b" 5  ", *b" 6  ", *b" 7  ", *b" 8  ", *b" 9  ",
    *b" 10 ", *b" 11 ", *b" 12 ", *b" 13 ", *b" 14 ", *b" 15 ", *b" 16 ", *b" 17 ", *b" 18 ",
    *b" 19 ", *b" 20 ", *b" 21 ", *b" 22 ", *b" 23 ", *b" 24 ", *b" 25 ", *b" 26 ", *b" 27 ",
    *b" 28 ", *b" 29 ", *b" 30 ", *b" 31 ", *b" 32 ", *b" 33 ", *b" 34 ", *b" 35 ", *b" 36 ",
    *b" 37 ", *b" 38 ", *b" 39 ", *b" 40 ", *b" 41 ", *b" 42 ", *b" 43 ", *b" 44 ", *b" 45 ",
    *b" 46 ", *b" 47 ", *b" 48 ", *b" 49 ", *b" 50 ", *b" 51 ", *b" 52 ", *b" 53 ", *b" 54 ",
    *b" 55 ", *b" 56 ", *b" 57 ", *b" 58 ", *b" 59 ", *b" 60 ", *b" 61 ", *b" 62 ", *b" 63 ",
    *b" 64 ",
];

/// All of them, in order.
fn texts() -> &'static [[u8; LABEL_ROOM]; 64]
    ensures { result.now ≡ padded_from 1 64 }
{
    &LABEL_TEXTS
}

/// Puts a label after a space at `at`, and answers where it ends. Bytes beyond, as far as its room goes, may be written over.
// As many bytes for any label: a branch on one digit or two would be foreseen wrongly about once a line.
pub(crate) fn put_label(out: &mut [u8], at: usize, label: u8) -> usize
    requires { (1 ≤ label) × (label ≤ 64) × (at + LABEL_ROOM ≤ length out.old) }
    ensures text { take result out.new ≡ take at out.old ++ label_text label }
    ensures within { result ≤ at + LABEL_ROOM }
{
    out[at..at + LABEL_ROOM].copy_from_slice(&texts()[label as usize - 1]);
    // A space, and one digit or two.
    if label < 10 { at + 2 } else { at + 3 }
}
