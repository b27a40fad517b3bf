ghost use Rattle.std.specs.Prelude.{◌^◌, ◌<◌};
ghost use Rattle.std.specs.Int.Signed.{mag};

/// How far something moves across and along. Sums wrap around at 64 bits, so that they always exist and can be taken back.
#[derive(Clone, Copy, Debug, PartialEq, Eq)]
pub struct Shift {
    pub across: i64,
    pub along: i64,
    ghost wide: { mag across < 2 ^ 63 },
    ghost long: { mag along < 2 ^ 63 },
}

/// The places that something flips, one for each binary digit. A place that is flipped twice is as it was.
#[derive(Clone, Copy, Debug, PartialEq, Eq)]
pub struct Word {
    pub bits: u64,
}
