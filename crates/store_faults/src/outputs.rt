//! How what runs write for those who watch them begins, by which a file of an earlier run is known.

/// The first line of a report whose rows are values between commas.
pub const REPORT_HEADER: &str = "stripe,place,outcome,detail\n";

/// What each row that is an object begins with.
pub const ROW_BEGIN: &str = "{\"stripe\":";

/// What the name of each counter begins with.
pub const COUNTER_PREFIX: &str = "rebuild_store_";
