use crate::format::Cause;

/// A refusal of the reader, and where in the file.
#[derive(Clone, Copy, Debug, PartialEq, Eq)]
pub struct Fault {
    pub cause: Cause,
    pub position: usize,
}
