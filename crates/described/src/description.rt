//! A rig as it is described.
use crate::words::{Reader, Unread};
use std::alloc::Global;

/// How many bytes a description has at most.
pub const MOST_BYTES: usize = 4096;

/// So many points, and the two that each seam joins.
#[derive(Drop)]
pub struct Seams {
    pub points: u8,
    pub pairs: Vec<(u8, u8)>,
}

/// The lamps that each button flips.
#[derive(Drop)]
pub struct Buttons {
    pub words: Vec<u64>,
}

/// The limit of each circuit, and the circuit of each load.
#[derive(Drop)]
pub struct Loads {
    pub limits: Vec<u8>,
    pub circuits: Vec<u8>,
}

/// The matroid at the bottom.
#[derive(Drop)]
pub enum Plan {
    Seams(Seams),
    Buttons(Buttons),
    Loads(Loads),
}

/// A layer; a set is a word, label `e` at bit `e - 1`.
#[derive(Clone, Copy, Debug, PartialEq, Eq)]
pub enum Layer {
    Dual,
    /// How many labels a set has at most.
    Truncation(u8),
    /// The contracted and the deleted set.
    Minor(u64, u64),
}

/// Which tie rule is used.
#[derive(Clone, Copy, Debug, PartialEq, Eq)]
pub enum Rule {
    Closest,
    Furthest,
    Turnabout,
}

/// What lies over the plan, and how it is walked.
#[derive(Clone, Copy, Debug, PartialEq, Eq)]
pub struct Course {
    /// The lower layer, if there is one, and the layer over it, if there are two.
    pub layers: Option<(Layer, Option<Layer>)>,
    pub rule: Rule,
    pub offered: u64,
    pub opened: u64,
    /// How many advances are made at most.
    pub steps: u64,
}

/// All that a description says.
#[derive(Drop)]
pub struct Rig {
    pub plan: Plan,
    pub course: Course,
}

fn read_seams(reader: &mut Reader) -> Result<Seams, Unread> {
    Ok(Seams {
        points: reader.small()?,
        pairs: reader.many(|reader| Ok((reader.small()?, reader.small()?)))?,
    })
}

fn read_buttons(reader: &mut Reader) -> Result<Buttons, Unread> {
    let words = reader.many(|reader| reader.number())?;
    Ok(Buttons { words })
}

fn read_loads(reader: &mut Reader) -> Result<Loads, Unread> {
    let limits = reader.many(|reader| reader.small())?;
    let circuits = reader.many(|reader| reader.small())?;
    Ok(Loads { limits, circuits })
}

fn read_plan(reader: &mut Reader) -> Result<Plan, Unread> {
    match reader.word()? {
        b"seams" => Ok(Plan::Seams(read_seams(reader)?)),
        b"buttons" => Ok(Plan::Buttons(read_buttons(reader)?)),
        b"loads" => Ok(Plan::Loads(read_loads(reader)?)),
        _ => Err(Unread::WrongForm),
    }
}

fn read_layer(reader: &mut Reader) -> Result<Layer, Unread> {
    match reader.word()? {
        b"dual" => Ok(Layer::Dual),
        b"truncation" => Ok(Layer::Truncation(reader.small()?)),
        b"minor" => Ok(Layer::Minor(reader.number()?, reader.number()?)),
        _ => Err(Unread::WrongForm),
    }
}

/// The layers over the plan.
fn read_layers(reader: &mut Reader) -> Result<Option<(Layer, Option<Layer>)>, Unread> {
    match reader.small()? {
        0 => Ok(None),
        1 => Ok(Some((read_layer(reader)?, None))),
        2 => Ok(Some((read_layer(reader)?, Some(read_layer(reader)?)))),
        _ => Err(Unread::WrongForm),
    }
}

fn read_rule(reader: &mut Reader) -> Result<Rule, Unread> {
    match reader.word()? {
        b"closest" => Ok(Rule::Closest),
        b"furthest" => Ok(Rule::Furthest),
        b"turnabout" => Ok(Rule::Turnabout),
        _ => Err(Unread::WrongForm),
    }
}

fn read_course(reader: &mut Reader) -> Result<Course, Unread> {
    Ok(Course {
        layers: read_layers(reader)?,
        rule: read_rule(reader)?,
        offered: reader.number()?,
        opened: reader.number()?,
        steps: reader.number()?,
    })
}

/// The rig that a text describes.
pub fn read_rig(text: &[u8], heap: Global) -> Result<Rig, Unread> {
    if text.len() > MOST_BYTES {
        return Err(Unread::WrongForm);
    }
    let mut reader = Reader::new(text, heap);
    let plan = read_plan(&mut reader)?;
    let course = read_course(&mut reader)?;
    reader.end()?;
    Ok(Rig { plan, course })
}
