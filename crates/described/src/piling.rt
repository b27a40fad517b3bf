//! The layers over a plan, and the tie rule.
use crate::description::{Course, Layer, Rule};
use crate::passing::Outgoing;
use crate::walking::write_walks;
use layers::{Dual, Minor, Truncation};
use matroid::Matroid;
use std::io;
use std::io::Write;
use tie_rule::{Closest, Furthest, Turnabout};

/// Writes the list of a whole pile.
fn write_whole<W: Write, P: Matroid + Drop>(
    out: &mut Outgoing<W>,
    matroid: P,
    course: Course,
) -> io::Result<()> {
    // A match and no `dyn`: a walk owns its matroid and rule, and its contracts speak of their types.
    match course.rule {
        Rule::Closest => write_walks(out, matroid, Closest, course),
        Rule::Furthest => write_walks(out, matroid, Furthest, course),
        Rule::Turnabout => write_walks(out, matroid, Turnabout::new(), course),
    }
}

/// Writes the list of the pile that the upper layer makes of this matroid.
// Not one with `write_pile`: over the lower layer comes `write_upper`, over the upper one the walk, and a closure takes one type only.
fn write_upper<W: Write, P: Matroid + Drop>(
    out: &mut Outgoing<W>,
    matroid: P,
    upper: Option<Layer>,
    course: Course,
) -> io::Result<()> {
    // A match, as above.
    match upper {
        None => write_whole(out, matroid, course),
        Some(Layer::Dual) => write_whole(out, Dual::new(matroid), course),
        Some(Layer::Truncation(most)) => {
            write_whole(out, Truncation::new(matroid, u64::from(most)), course)
        }
        Some(Layer::Minor(contracted, deleted)) => {
            write_whole(out, Minor::new(matroid, contracted, deleted), course)
        }
    }
}

/// Writes the list of the pile that both layers make of this matroid.
pub fn write_pile<W: Write, P: Matroid + Drop>(
    out: &mut Outgoing<W>,
    matroid: P,
    course: Course,
) -> io::Result<()> {
    let Some((lower, upper)) = course.layers else {
        return write_whole(out, matroid, course);
    };
    // A match, as above; a layer over a layer is a type again, so each depth has a function.
    match lower {
        Layer::Dual => write_upper(out, Dual::new(matroid), upper, course),
        Layer::Truncation(most) => write_upper(
            out,
            Truncation::new(matroid, u64::from(most)),
            upper,
            course,
        ),
        Layer::Minor(contracted, deleted) => write_upper(
            out,
            Minor::new(matroid, contracted, deleted),
            upper,
            course,
        ),
    }
}
