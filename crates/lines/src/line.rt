ghost use Rattle.lines.specs.Text.{labels_text, line_text};
ghost use Rattle.std.specs.Prelude.{◌≡◌, ◌+◌, ◌≤◌, ◌++◌, codes, decimal, length, take};

use crate::label_text::{LABEL_ROOM, put_label};
use itoa::write_digits;
use label_words::labels_of;

/// A count, and a set of labels.
#[derive(Clone, Copy, Debug)]
pub struct Line {
    /// What the line begins with.
    pub count: u64,
    /// The labels, as a word: label `e` at bit `e - 1`.
    pub set: u64,
}

/// How many bytes a count takes at most.
const COUNT_ROOM: usize = 20;

/// How many bytes the labels of a word are written with at most.
const LABELS_ROOM: usize = LABEL_ROOM * u64::BITS as usize;

/// How many bytes a line is written with at most, its line feed among them.
pub(crate) const LINE_ROOM: usize = COUNT_ROOM + LABELS_ROOM + 1;

/// Puts a line at `at`: the count, then each label of the set, upwards, after a space, and a line feed; answers where it ends.
/// Bytes beyond, as far as its room goes, may be written over.
// Bytes at their places: `Display` is a call for each piece, and a line took four times as long.
pub(crate) fn put_line(out: &mut [u8], at: usize, line: Line) -> usize
    requires { at + LINE_ROOM ≤ length out.old }
    ensures text { take result out.new ≡ take at out.old ++ (line_text line.count line.set ++ codes "\n") }
    ensures within { result ≤ at + LINE_ROOM }
{
    let labels = put_count(out, at, line.count);
    let end = put_labels(out, labels, line.set);
    out[end] = b'\n';
    end + 1
}

/// How many digits a count has.
fn digits(count: u64) -> usize
    ensures { result ≡ length (decimal count) }
{
    match count.checked_ilog10() {
        Some(tens) => tens as usize + 1,
        None => 1,
    }
}

/// Puts a count at `at`, and answers where it ends.
fn put_count(out: &mut [u8], at: usize, count: u64) -> usize
    requires { at + COUNT_ROOM ≤ length out.old }
    ensures text { take result out.new ≡ take at out.old ++ decimal count }
    ensures within { result ≤ at + COUNT_ROOM }
{
    let end = at + digits(count);
    write_digits(count, out, end);
    end
}

/// Puts each label of a word, upwards, after a space, and answers where they end; a turn for each, however far apart they are.
fn put_labels(out: &mut [u8], start: usize, labels: u64) -> usize
    requires { start + LABELS_ROOM ≤ length out.old }
    ensures text { take result out.new ≡ take start out.old ++ labels_text labels 64 }
    ensures within { result ≤ start + LABELS_ROOM }
{
    let mut at = start;
    for label in labels_of(labels) {
        at = put_label(out, at, label);
    }
    at
}
