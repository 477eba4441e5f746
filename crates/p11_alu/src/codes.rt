/// The condition codes: negative, zero, overflow and carry.
#[derive(Clone, Copy, Debug, PartialEq, Eq)]
pub struct Codes {
    pub n: bool,
    pub z: bool,
    pub v: bool,
    pub c: bool,
}
