//! Layers over any matroid: its dual, its truncation, and its minors. A layer holds the matroid below, is again a
//! matroid of the same size, and so can have another layer over it.
#![tactic(auto)]

mod dual;
mod kind;
mod layer;
mod minor;
mod truncation;

pub use dual::{Complement, Dual};
pub use kind::LayerKind;
pub use layer::Layer;
pub use minor::{Minor, Pins};
pub use truncation::{Cap, Truncation};

#[cfg(test)]
mod tests;
