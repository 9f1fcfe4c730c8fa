//! What several commands share: the making of arguments, and the options of a store, of its names and of the tests of fragments.
pub(crate) mod definitions;
pub(crate) mod naming;
pub(crate) mod store;
pub(crate) mod testing;
