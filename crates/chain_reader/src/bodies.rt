//! The numbers and totals in a record.
ghost use Rattle.std.specs.Prelude.{◌≡◌, ◌+◌, ◌≤◌, length, take, drop};
ghost use Rattle.chain_lists.specs.Faults.{number_in};
ghost use Rattle.chain_lists.specs.Lists.{Fitting, framed, little, total_kind, total_written};
ghost use Rattle.chain_lists.specs.declared.Kind.TheVariants.{LampTotal, ShiftTotal};

use chain_lists::Total;
use chain_records::Record;

/// The 8 bytes from `i` on, the lowest first.
pub(crate) fn word_at(body: &[u8], i: usize) -> u64
    requires { i + 8 ≤ length body.now }
    ensures reads { result ≡ number_in (take 8 (drop i body.now)) }
    ensures writes { little 8 result ≡ take 8 (drop i body.now) }
{
    u64::from_le_bytes(*body[i..].first_chunk().unwrap())
}

/// The total in a shift total's record.
// No `TryFrom` for this and `lamp_in`: `judge` has told the kind already, so that nothing is left to fail.
pub(crate) fn shift_in(found: Record<'_>) -> Total
    requires { found.kind ≡ ShiftTotal }
    ensures kind { total_kind result ≡ ShiftTotal }
    ensures bytes { framed ShiftTotal found.entry.body.now ≡ total_written result }
    ensures whole { Fitting result }
{
    Total::Shift(
        word_at(found.body, 0).cast_signed(),
        word_at(found.body, 8).cast_signed(),
    )
}

/// The total in a lamp total's record.
pub(crate) fn lamp_in(found: Record<'_>) -> Total
    requires { found.kind ≡ LampTotal }
    ensures kind { total_kind result ≡ LampTotal }
    ensures bytes { framed LampTotal found.entry.body.now ≡ total_written result }
    ensures whole { Fitting result }
{
    Total::Lamp(word_at(found.body, 0))
}
