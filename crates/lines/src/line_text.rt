ghost use Rattle.arrayvec.specs.ArrayString.{array_string_len};
ghost use Rattle.std.specs.Prelude.{◌≡◌, ◌+◌, ◌≤◌, ◌++◌};

use arrayvec::ArrayString;
use itoa::{Buffer, Integer};

/// How many bytes such a line takes at most: `total`, three numbers, each after a space, and a line feed.
const TEXT_ROOM: usize = 5 + 3 * (1 + u64::MAX_STR_LEN) + 1;

/// A line as it is printed, with its line feed. It is made in a buffer of its own, so that nothing can fail on the way.
pub type LineText = ArrayString<TEXT_ROOM>;

/// Puts a number at the end.
pub(crate) fn push_number<I: Integer, const ROOM: usize>(text: &mut ArrayString<ROOM>, number: I)
    requires { array_string_len text.old + I.MAX_STR_LEN ≤ ROOM }
    ensures text { text.new.bytes ≡ text.old.bytes ++ I.text number }
    ensures within { array_string_len text.new ≤ array_string_len text.old + I.MAX_STR_LEN }
{
    text.push_str(Buffer::new().format(number));
}
