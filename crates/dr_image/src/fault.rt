use thiserror::Error;

/// Why a text gave no image.
#[derive(Debug, Clone, Copy, PartialEq, Eq, Error)]
pub enum ImageFault {
    #[error("no memory")]
    NoMemory,
    /// The first bad line, counted from 1.
    #[error("bad image line {line}")]
    BadImage { line: u32 },
}
