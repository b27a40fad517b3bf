//! Records in a buffer, each at a place of it.
ghost use Rattle.std.specs.Prelude.{◌≡◌, ◌+◌, ◌≤◌, ◌∷◌, ◌++◌, length, nat_le};
ghost use Rattle.chain_lists.specs.Lists.{Fitting, framed, little, total_written};
ghost use Rattle.chain_writer.specs.Writing.{Puts, put_at};
ghost use Rattle.std.specs.Int.{w64};
ghost use Rattle.std.proofs.Common.{of_z};

use chain_lists::{FRAME, Kind, Total};

/// Whether `size` bytes are left behind the place `at` of a buffer of this length.
pub(crate) fn has_room(length: usize, at: usize, size: usize) -> bool
    ensures { result ≡ nat_le (at + size) length }
{
    at <= length && length - at >= size
}

// Puts bytes in at `at`, and answers where they end.
fn put(out: &mut [u8], at: usize, bytes: &[u8]) -> usize
    requires { at + length bytes.now ≤ length out.old }
    ensures place { result ≡ at + length bytes.now }
    ensures written { out.new ≡ put_at at bytes.now out.old }
{
    let end = at + bytes.len();
    out[at..end].copy_from_slice(bytes);
    end
}

/// Puts a record in at `at`, where it has room, and answers where it ends.
pub(crate) fn put_record(out: &mut [u8], at: usize, kind: Kind, body: &[u8]) -> usize
    ensures { Puts at (framed kind body.now) out.old out.new result }
{
    if body.len() > out.len() || !has_room(out.len(), at, FRAME + body.len()) {
        return at;
    }
    let kind_at = put(out, at, &kind.length().to_le_bytes());
    let body_at = put(out, kind_at, &kind.number().to_le_bytes());
    put(out, body_at, body)
}

/// Puts a total in at `at`, where it has room, and answers where it ends.
pub(crate) fn put_total_record(out: &mut [u8], at: usize, total: Total) -> usize
    ensures puts { Puts at (total_written total) out.old out.new result }
    ensures whole { Fitting total }
{
    match total {
        Total::Shift(across, along) => {
            put_record(out, at, Kind::ShiftTotal, &shift_body(across, along))
        }
        Total::Lamp(word) => put_record(out, at, Kind::LampTotal, &word.to_le_bytes()),
    }
}

/// The body of the record of a head.
pub(crate) fn head_body(n: u8, start: u64) -> [u8; 9]
    ensures { result ≡ n ∷ little 8 start }
{
    let mut body = [n; 9];
    body[1..].copy_from_slice(&start.to_le_bytes());
    body
}

// The body of the record of a shift total.
fn shift_body(across: i64, along: i64) -> [u8; 16]
    ensures { result ≡ little 8 (of_z w64 across) ++ little 8 (of_z w64 along) }
{
    let mut body = [0; 16];
    body[..8].copy_from_slice(&across.to_le_bytes());
    body[8..].copy_from_slice(&along.to_le_bytes());
    body
}
