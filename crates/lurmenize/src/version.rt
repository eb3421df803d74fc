// The version of the library, which include/lurmenize.h has too.
ghost use Rattle.std.specs.Prelude.{◌≡◌};
ghost use Rattle.lurmenize.specs.Version.{version};

const MAJOR: u64 = 0;

const MINOR: u64 = 4;

const PATCH: u64 = 0;

// One number for the three, so that a later version is a greater one.
#[unsafe(no_mangle)]
pub extern "C" fn lurm_version() -> u64
    ensures { result ≡ version }
{
    MAJOR * 1000000 + MINOR * 1000 + PATCH
}
