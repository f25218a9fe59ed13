//! Which servers and agents there are.

/// The last server and the last agent; they are numbered from 0.
#[derive(Clone, Copy)]
pub struct Places {
    pub(crate) last_server: u8,
    pub(crate) last_agent: u8,
}
