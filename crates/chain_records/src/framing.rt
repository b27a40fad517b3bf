//! The frame of a record: four bytes of length, two of kind.
ghost use Rattle.std.specs.Prelude.{◌≡◌, ◌+◌, ◌≤◌, true, [], length, take, Some, MatchOption};
ghost use Rattle.chain_lists.specs.Faults.{Beginning, complete, misshapen, record_fault};
ghost use Rattle.chain_lists.specs.Lists.{framed, kind_length};

use chain_lists::Kind;

/// How many bytes of a record state its length.
pub(crate) const LENGTH_SIZE: usize = 4;

/// Whether the first record of `rest` is all there.
pub(crate) fn is_complete(rest: &[u8]) -> bool
    ensures { result ≡ complete rest.now }
{
    rest.split_first_chunk().is_some_and(|(length, behind)| {
        u32::from_le_bytes(*length) as usize <= behind.len()
    })
}

/// The kind of the first record of `rest`, if it has one and the length of it.
pub(crate) fn kind_of(rest: &[u8]) -> Option<Kind>
    requires { complete rest.now ≡ true }
    ensures { MatchOption result
        ((b : Beginning) → record_fault b rest.now ≡ Some misshapen)
        (λ k. (take 6 rest.now ≡ framed k []) × (4 + kind_length k ≤ length rest.now)) }
{
    let (length, behind) = rest.split_first_chunk()?;
    let kind = Kind::try_from(u16::from_le_bytes(*behind.first_chunk()?)).ok()?;
    (u32::from_le_bytes(*length) == kind.length()).then_some(kind)
}
