//! Walks for the benchmark, as functions that C can call. Each goes on to the end, or until it has handed out so many sets.
#![tactic(auto)]

ghost use Rattle.labels.specs.Sets.{limit};
ghost use Rattle.measure.specs.Shifts.{entries_of};
ghost use Rattle.binary_matroid.specs.Columns.{columns};
ghost use Rattle.graphic.specs.Edges.{graph};
ghost use Rattle.graphic.specs.Graphs.{forest};
ghost use Rattle.matroid_laws.specs.Greedy.{greedy};
ghost use Rattle.std.specs.Option.{option_map};
ghost use Rattle.std.specs.Prelude.{◌≡◌, ◌-◌, bit_or, length};
ghost use Rattle.timed.specs.Timed.{Tells, Writes, buttons, columns_in, digest_of, digested, dual_seams, edges_in, piled_seams, seams, shifts_to, timed, walk_over};
ghost use Rattle.walk.specs.States.{Keeps, state_of};
ghost use Rattle.walk_laws.specs.Steps.{several};

use binary_matroid::Binary;
use graphic::Graphic;
use labels::LIMIT;
use layers::{Dual, Minor, Truncation};
use matroid::Matroid;
use measure::Shifts;
use tie_rule::Closest;
use walk::{Exchange, Walk};

/// Spreads the bits of a digest.
const PRIME: u64 = 1099511628211;

/// How a walk ended.
#[repr(C)]
#[derive(Clone, Copy, Debug, PartialEq, Eq)]
pub struct Outcome {
    /// How many sets were handed out.
    pub count: u64,
    /// Made of the start and all exchanges, in order.
    pub digest: u64,
    /// The total of the shifts.
    pub across: i64,
    pub along: i64,
}

fn digested(digest: u64, x: Exchange) -> u64
    ensures { result ≡ digested digest x }
{
    let code = ((x.high as u64) << 16) | ((x.low as u64) << 8) | (x.came as u64);
    (digest ^ code).wrapping_mul(PRIME)
}

/// What each label is worth.
// The program for described rigs has nearly the same five lines; one public function for both would tie a benchmark's table to that of a
// program. By label: what a label is worth is made of its number.
fn shifts() -> Shifts
    ensures { entries_of result ≡ shifts_to limit }
{
    let mut shifts = Shifts::new();
    for before in 0..LIMIT as u64 {
        let label = before + 1;
        let _ = shifts.add(label as i64, -((label * label) as i64));
    }
    shifts
}

/// Goes on until so many sets were handed out, the present one among them, or the walk is finished; answers the digest.
fn go_on<P: Matroid>(walk: &mut Walk<P, Closest, Shifts>, most: u64) -> u64
    ensures keeps { Keeps walk.old walk.new }
    ensures state { let w = walk_over (P.Matroid.size walk.old.matroid) (P.Matroid.independent walk.old.matroid) (entries_of walk.old.measure)
        in (several w (most - 1) (state_of walk.old)).2 ≡ state_of walk.new }
    ensures digest { let w = walk_over (P.Matroid.size walk.old.matroid) (P.Matroid.independent walk.old.matroid) (entries_of walk.old.measure)
        in result ≡ digest_of walk.old.view.present (several w (most - 1) (state_of walk.old)).0 }
{
    let mut digest = walk.look().present;
    for _ in 1..most {
        let Some(x) = walk.advance() else {
            return digest;
        };
        digest = digested(digest, x);
    }
    digest
}

/// How the walk over the matroid ends.
fn run<P: Matroid + Drop>(matroid: P, most: u64) -> Outcome
    ensures { Tells (timed (P.Matroid.size matroid) (P.Matroid.independent matroid)) most result }
{
    let mut walk = Walk::begin(matroid, Closest, shifts(), 0, u64::MAX);
    let digest = go_on(&mut walk, most);
    let view = walk.close().view;
    Outcome {
        count: view.count,
        digest,
        across: view.total.across,
        along: view.total.along,
    }
}

/// The graph of the pairs of `ends`, each two bytes.
// Bytes and no pairs: C calls with them.
// Other crates fill graphs so too; one in `graphic` would need a contract on which edge is refused first and why.
fn graph_of(points: u8, ends: &[u8]) -> Option<Graphic>
    ensures { option_map graph result ≡ edges_in points ends.now }
{
    let mut graphic = Graphic::new(points).ok()?;
    let mut left = ends;
    while let [a, b, rest @ ..] = left {
        graphic.add(*a, *b).ok()?;
        left = rest;
    }
    Some(graphic)
}

/// The binary matroid of these columns.
// Not one loop with `graph_of`: a pair there is cut out of the bytes, and what is entered differs.
fn binary_of(words: &[u64]) -> Option<Binary>
    ensures { option_map columns result ≡ columns_in words.now }
{
    let mut binary = Binary::new();
    for word in words {
        binary.add(*word).ok()?;
    }
    Some(binary)
}

/// Writes how the walk over a matroid ended, if there is a matroid; answers whether there is.
// A bool, and the outcome in the caller's place for it: C calls the functions below so.
fn write_outcome<P: Matroid + Drop>(matroid: Option<P>, most: u64, outcome: &mut Outcome) -> bool
    ensures { Writes (option_map (λ m. timed (P.Matroid.size m) (P.Matroid.independent m)) matroid) most result outcome.old outcome.new }
{
    let Some(matroid) = matroid else {
        return false;
    };
    *outcome = run(matroid, most);
    true
}

/// A walk over the spanning trees of a graph.
#[unsafe(no_mangle)]
pub extern "C" fn timed_seams(points: u8, ends: &[u8], most: u64, outcome: &mut Outcome) -> bool
    ensures { Writes (option_map seams (edges_in points ends.now)) most result outcome.old outcome.new }
{
    write_outcome(graph_of(points, ends), most, outcome)
}

/// A walk over the complements of the spanning trees.
#[unsafe(no_mangle)]
pub extern "C" fn timed_dual(points: u8, ends: &[u8], most: u64, outcome: &mut Outcome) -> bool
    ensures { Writes (option_map dual_seams (edges_in points ends.now)) most result outcome.old outcome.new }
{
    write_outcome(graph_of(points, ends).map(Dual::new), most, outcome)
}

/// The dual of a minor, capped.
fn pile(graphic: Graphic) -> Truncation<Dual<Minor<Graphic>>>
    ensures graphic { result.below.below.below ≡ graphic }
    ensures held { result.below.below.kind.held ≡ greedy (length (graph graphic)) (forest (graph graphic)) 1 }
    ensures removed { result.below.below.kind.removed ≡ bit_or 1 2 }
    ensures most { result.kind.most ≡ 3 }
{
    Truncation::new(Dual::new(Minor::new(graphic, 0b1, 0b10)), 3)
}

/// A walk over a pile of three layers.
#[unsafe(no_mangle)]
pub extern "C" fn timed_pile(points: u8, ends: &[u8], most: u64, outcome: &mut Outcome) -> bool
    ensures { Writes (option_map piled_seams (edges_in points ends.now)) most result outcome.old outcome.new }
{
    write_outcome(graph_of(points, ends).map(pile), most, outcome)
}

/// A walk over the bases of a binary matroid.
#[unsafe(no_mangle)]
pub extern "C" fn timed_buttons(words: &[u64], most: u64, outcome: &mut Outcome) -> bool
    ensures { Writes (option_map buttons (columns_in words.now)) most result outcome.old outcome.new }
{
    write_outcome(binary_of(words), most, outcome)
}
