// The version of the library.
ghost use Rattle.std.specs.Prelude.{◌≡◌};
ghost use Rattle.terkwabu.specs.Version.{version};

// The version in one number: a million times the first, a thousand times the second, and the third.
const VERSION: u64 = 1002000;

// Gives the version of the library that is linked, TERKWABU_VERSION of its own header.
#[unsafe(no_mangle)]
pub extern "C" fn terkwabu_version() -> u64
    ensures { result ≡ version }
{
    VERSION
}
