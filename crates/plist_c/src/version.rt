//! The version of the library.

ghost use Rattle.std.specs.Prelude.{◌≡◌};

/// The version of the library.
#[repr(C)]
#[derive(Clone, Copy)]
pub struct Version {
    /// The first number, which changes with what a program names.
    pub major: u32,
    /// The second number, which changes when names are added.
    pub minor: u32,
    /// The third number.
    pub patch: u32,
}

/// Returns the version of the library.
#[unsafe(no_mangle)]
pub extern "C" fn sizhetom_version() -> Version
    ensures { result ≡ record { major = 0; minor = 1; patch = 0 } }
{
    Version {
        major: 0,
        minor: 1,
        patch: 0,
    }
}
