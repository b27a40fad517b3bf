ghost use Rattle.lines.specs.declared.page.TheConstants.{PAGE_SIZE};
ghost use Rattle.std.specs.Prelude.{◌≡◌, ◌≤◌, length};

/// How many bytes a page has.
pub(crate) const PAGE_SIZE: usize = 8192;

/// Lines as they are printed, one after another, for an output that takes many of them at once.
// Bytes with their number beside: a line is put with plain stores, where `ArrayVec` would count each byte.
#[derive(Drop)]
pub struct Page {
    pub(crate) bytes: [u8; PAGE_SIZE],
    pub(crate) used: usize,
    ghost whole: { length bytes ≡ PAGE_SIZE },
    ghost fits: { used ≤ PAGE_SIZE },
}
