//! The threads of a run: started, joined and closed.
pub(crate) mod all;
pub(crate) mod closing;
pub(crate) mod collecting;
