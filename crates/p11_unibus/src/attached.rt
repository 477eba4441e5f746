//! The devices that are attached to the bus.
use p11_dl11::Dl11;
use p11_kw11::Kw11;
use p11_rk11::Rk11;
use std::alloc::{Allocator, Global};

/// The devices that are attached to the bus. The bus has them on the heap, so that whatever holds a bus, and asks no
/// device, has nothing to do with what they consist of: its proofs are the shorter for it.
#[derive(Drop)]
pub(crate) struct Devices<A: Allocator = Global> {
    pub clock: Kw11,
    pub line: Dl11<A>,
    pub disk: Rk11<A>,
}
