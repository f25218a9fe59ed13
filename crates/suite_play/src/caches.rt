//! The limits of each agent's cache.

/// The limits of each agent's cache: bytes in all, bytes of a site, and entries.
#[derive(Clone, Copy)]
pub struct Caches {
    pub budget: usize,
    pub quota: usize,
    pub slots: usize,
}
