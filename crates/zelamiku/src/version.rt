//! The library's version.
ghost use Rattle.std.specs.Prelude.{◌≡◌};

/// 10,000 times the first number, 100 times the second, and the third.
pub const VERSION: u32 = 200;

/// The version of the library, for a host that was built with another release's header.
#[unsafe(no_mangle)]
pub extern "C" fn zelamiku_version() -> u32
    ensures { result ≡ VERSION }
{
    VERSION
}
