//! The one answer of a source or a sink that has failed.

use thiserror::Error;

/// The source or sink has failed. What was read or written before stays as it was.
#[derive(Clone, Copy, Debug, PartialEq, Eq, Error)]
#[error("Failed")]
pub struct Failed;
