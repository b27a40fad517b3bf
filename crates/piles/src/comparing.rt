//! Walks, and the number of bases without a walk.
use anyhow::anyhow;
use label_words::{contains, full_to};
use matroid::{Matroid, is_base, start};
use measure::Measure;
use std::io::Write;
use tie_rule::TieRule;
use walk::{Parts, Walk};

/// The highest label that a word can hold.
const HIGHEST: u8 = u64::BITS as u8;

/// What a walk is called, and how it begins. A set is a word, label `e` at bit `e - 1`.
#[derive(Clone, Copy, Debug)]
pub struct Case {
    /// The matroid at the bottom.
    // Not in one struct with the matroid: that has another type with each layer, and the name stays.
    pub kind: &'static str,
    /// All else, layers from the lowest up.
    pub rest: &'static str,
    /// The set that the start is made from.
    pub offered: u64,
}

/// How many of the words below `words` are bases that are wanted.
// `rigs` counts all bases, with a contract; here a caller's test is asked too, which one for both would have to state.
fn bases_below<P: Matroid, F: Fn(u64) -> bool>(matroid: &P, words: u64, wanted: F) -> u64
    requires { F.IsAlwaysCallable wanted }
{
    (0..words)
        .filter(|set| wanted(*set) && is_base(matroid, *set))
        .count() as u64
}

/// Whether the highest label that is in exactly one of two sets is active; so it is said of equal sets too.
fn is_ahead(set: u64, first: u64, active: u64) -> bool {
    let highest = HIGHEST.saturating_sub((set ^ first).leading_zeros() as u8);
    set == first || contains(active, highest)
}

/// Walks to the end, and takes the walk apart.
pub fn walked<P: Matroid, R: TieRule, M: Measure>(
    mut walk: Walk<P, R, M>,
) -> Parts<P, R, M, M::Value> {
    // A loop: an iterator made by `std::iter::from_fn` is not known to end, and what runs one to its end asks that.
    while walk.advance().is_some() {}
    walk.close()
}

/// The number of words that a matroid's sets are among.
fn words_of<P: Matroid>(matroid: &P) -> u64 {
    full_to(matroid.size()).saturating_add(1)
}

/// Walks to the end, and writes the line of a case: how many sets were found without a walk, and how many were handed out; it is an error
/// where the numbers differ. Gives the matroid back.
fn write_pair<W: Write, P: Matroid + Drop, R: TieRule + Drop, M: Measure + Drop>(
    out: &mut W,
    case: Case,
    found: u64,
    what: &str,
    walk: Walk<P, R, M>,
) -> anyhow::Result<P> {
    let Parts { matroid, view, .. } = walked(walk);
    let handed = view.count;
    writeln!(
        out,
        "{}, {}: {found} {what}, {handed} handed out",
        case.kind, case.rest
    )?;
    if found != handed {
        return Err(anyhow!("the numbers differ"));
    }
    Ok(matroid)
}

/// Walks with all labels active, and writes how many bases there are and how many sets the walk handed out: as many, or it is an error.
/// Gives the matroid back.
pub fn compare<W: Write, P: Matroid + Drop, R: TieRule + Drop, M: Measure + Drop>(
    out: &mut W,
    case: Case,
    matroid: P,
    rule: R,
    measure: M,
) -> anyhow::Result<P> {
    let bases = bases_below(&matroid, words_of(&matroid), |_| true);
    let walk = Walk::begin(matroid, rule, measure, case.offered, u64::MAX);
    write_pair(out, case, bases, "bases", walk)
}

/// Walks with some labels active, and writes how many bases are ahead of the start and how many sets the walk handed out: as many, or it is an error.
/// Gives the matroid back.
pub fn compare_part<W: Write, P: Matroid + Drop, R: TieRule + Drop, M: Measure + Drop>(
    out: &mut W,
    case: Case,
    opened: u64,
    matroid: P,
    rule: R,
    measure: M,
) -> anyhow::Result<P> {
    let first = start(&matroid, case.offered);
    let ahead = bases_below(
        &matroid,
        words_of(&matroid),
        |set| is_ahead(set, first, opened),
    );
    let walk = Walk::begin(matroid, rule, measure, case.offered, opened);
    write_pair(out, case, ahead, "bases ahead", walk)
}
