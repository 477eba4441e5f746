/// Where a stack pointer lies by the stack limit of kernel mode.
#[derive(Clone, Copy, Debug)]
pub enum Zone {
    /// At the limit, or above it.
    Clear,
    /// In the 16 words below the limit.
    Yellow,
    /// Below these.
    Red,
}
