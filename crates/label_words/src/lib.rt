//! Sets of labels as code has them: 64-bit words, label `e` at bit `e - 1`.
//! Every function answers for every label; a label outside 1 to 64 is in no word and cannot join one.
#![tactic(auto)]

ghost use Rattle.std.specs.Prelude.{◌≡◌, ◌<◌, ◌≤◌, min, bit_or, bit_xor};
ghost use Rattle.label_words.specs.Words.{word_of};
ghost use Rattle.labels.specs.Sets.{full, has, reopened as reopened_at};

mod upwards;

pub use upwards::{Labels, labels_of};

/// How many labels a word can hold.
const WIDTH: u8 = u64::BITS as u8;

/// The word of `label` alone.
fn word(label: u8) -> u64
    ensures { result ≡ word_of label }
{
    if label == 0 || label > WIDTH {
        return 0;
    }
    1u64 << (label - 1)
}

/// Whether `label` is in `set`.
pub fn contains(set: u64, label: u8) -> bool
    ensures { result ≡ has set label }
{
    if label == 0 || label > WIDTH {
        return false;
    }
    (set >> (label - 1)) & 1 == 1
}

/// `set` with `label`.
pub fn inserted(set: u64, label: u8) -> u64
    ensures { result ≡ bit_or set (word_of label) }
{
    set | word(label)
}

/// `set` with the labels `a` and `b` on the other side: in where they were out, out where they were in.
pub fn swapped(set: u64, a: u8, b: u8) -> u64
    ensures { result ≡ bit_xor set (bit_or (word_of a) (word_of b)) }
{
    set ^ (word(a) | word(b))
}

/// The labels 1 to `n`, as many of them as a word can hold.
pub fn full_to(n: u8) -> u64
    ensures { result ≡ full (min n 64) }
{
    if n >= WIDTH {
        u64::MAX
    } else {
        (1u64 << n) - 1
    }
}

/// The active labels after an exchange at `label`: all below it, not itself, and those above as they were.
pub fn reopened(active: u64, label: u8) -> u64
    ensures inside { label ≤ 64 → result ≡ reopened_at active label }
    ensures beyond { 64 < label → result ≡ full 64 }
{
    (active & !full_to(label)) | full_to(label.saturating_sub(1))
}

#[cfg(test)]
mod tests {
    use super::*;

    #[test]
    fn labels_upwards(rt: HostRuntime) {
        let mut ends = labels_of(1 << 63 | 1 << 9 | 1);
        assert_eq!(rt; ends.next(), Some(1));
        assert_eq!(rt; ends.next(), Some(10));
        assert_eq!(rt; ends.next(), Some(64));
        assert_eq!(rt; ends.next(), None);
        assert_eq!(rt; ends.next(), None);
        assert_eq!(rt; labels_of(0).next(), None);
    }
}
