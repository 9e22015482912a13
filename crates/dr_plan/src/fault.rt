use crate::reason::Reason;

/// Why a text gave no plan.
#[derive(Clone, Copy)]
pub enum PlanFault {
    NoMemory,
    /// The first bad line, counted from 1, and why it is bad; where a line is missing, the number after the last one.
    BadLine { line: usize, reason: Reason },
}
