//! The names of a disk's files, by which journals and records call them.

/// A file of a node's disk.
#[derive(Clone, Copy, Debug, PartialEq, Eq)]
pub enum Name {
    /// The start plan's record.
    Plan,
    /// The journal in one file.
    Flat,
    /// The journal's file of one section.
    Segment(u64),
}
