//! Who a session is. Each function that sends is called with it.
use fix_base::Identity;
use std::alloc::Global;

/// Who a session is, and where it takes its memory.
#[derive(Drop)]
pub struct Context {
    pub alloc: Global,
    pub identity: Identity,
}
