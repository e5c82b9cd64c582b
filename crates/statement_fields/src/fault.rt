//! Why a field of several entries or bytes was not read.

use asp_base::LineFault;
use ground_program::ReadKind;

/// The first fault of a field of several entries or bytes, or want of memory.
pub type FieldFault = LineFault<ReadKind>;
