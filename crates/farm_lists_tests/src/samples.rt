//! A list, and the reports on it.

/// Two requests and two closes, in turn.
pub const LIST: &[u8] = b"order,stripe,target,length,survivors
rebuild,abc,x0,3,x1 x2 px
close,,,,
rebuild,abc,x0,3,x1 x2 px
close,,,,
";

/// The report where all three survivors are there. The digest is that of `abc` in FIPS 180-2.
pub const REPORT: &[u8] = b"number,stripe,target,length,outcome,digest,unread
0,abc,x0,3,rebuilt,ba7816bf8f01cfea414140de5dae2223b00361a396177a9cb410ff61f20015ad,
";

/// The report where `abc.px` is left out.
pub const REPORT_WITHOUT_PX: &[u8] = b"number,stripe,target,length,outcome,digest,unread
0,abc,x0,3,several,,px
";

/// A report without requests.
pub const EMPTY_REPORT: &[u8] = b"number,stripe,target,length,outcome,digest,unread
";
