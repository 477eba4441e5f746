//! The quotient and the remainder of a division.
use crate::codes::Codes;

/// What DIV leaves. Where `fits` is false, as for a divisor of 0, no register is to be changed, and
/// `quotient` and `remainder` are 0.
#[derive(Clone, Copy, Debug, PartialEq, Eq)]
pub struct Quotient {
    pub fits: bool,
    pub quotient: u16,
    pub remainder: u16,
    pub codes: Codes,
}
