//! How a job ends.

/// How a job ended. A file is named by its place among the job's names, from 1: those that are read, then those that
/// are written.
#[derive(Debug, Drop)]
pub enum Ended<A> {
    /// All was read, made and said, with this answer.
    Answered(A),
    /// The text of the file has more than 2^30 bytes.
    TooLong { file: u32 },
    /// The file could not be read.
    ReadFault { file: u32 },
    /// The file could not be written; 0 is standard output.
    WriteFault { file: u32 },
    /// Want of memory.
    Memory,
}
