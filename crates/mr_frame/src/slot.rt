//! What a local has.
use mr_base::Pointer;

/// A local's size and alignment in bytes, and its storage.
#[derive(Clone, Copy)]
pub struct Slot {
    pub size: u64,
    pub align: u64,
    pub storage: Option<Pointer>,
}
