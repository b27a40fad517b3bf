ghost use Rattle.lines.specs.Sets.{set_text};
ghost use Rattle.std.specs.Prelude.{◌≡◌};

use crate::line_text::push_number;
use arrayvec::ArrayString;
use itoa::Integer;
use label_words::labels_of;

/// How many bytes the labels of a word take at most, with nothing between.
const SET_ROOM: usize = u8::MAX_STR_LEN * u64::BITS as usize;

/// The text of a set, in a buffer of its own.
pub type SetText = ArrayString<SET_ROOM>;

/// The labels of a word upwards, label `e` at bit `e - 1`, with nothing between; `none` where there is none.
pub fn set_text(set: u64) -> SetText
    ensures { result.bytes ≡ set_text set }
{
    let mut text = SetText::new();
    if set == 0 {
        text.push_str("none");
        return text;
    }
    for label in labels_of(set) {
        push_number(&mut text, label);
    }
    text
}
