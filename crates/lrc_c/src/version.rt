//! The version.
ghost use Rattle.std.specs.Prelude.{◌≡◌};

/// The version of the library: 10,000 times its first number, 100 times its second, and its third.
#[unsafe(no_mangle)]
pub extern "C" fn lrc_version() -> u32
    ensures { result ≡ 200 }
{
    200
}
