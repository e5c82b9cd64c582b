//! Which encoding.

/// The encodings, which differ in the names that they make of a component.
#[derive(Clone, Copy, Drop)]
pub(crate) enum Kind {
    /// With edges that are chosen.
    Plain,
    /// With stages that are compared.
    Unique,
}
