//! Which `vet` this is.

/// The last version that CHANGELOG has, with a mark while there is none for what stands here, and
/// the kit that it is proved with.
pub(crate) const VERSION: &str = "0.1.0+, for rattle-kit-13f";
