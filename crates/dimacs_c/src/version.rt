//! The version of the library, and whether it is proved.

ghost use Rattle.std.specs.Prelude.{◌≡◌};
ghost use Rattle.dimacs_jobs.specs.Version.{proved_version};
ghost use Rattle.dimacs_c.specs.Calls.{HandsOut, handed};

use crate::answer::hand_out;
use dimacs_jobs::{PROVED, version};

/// Version 0.2.0, as `DIMACS_VERSION_NUMBER` of `dimacs.h`.
const VERSION: u32 = 200;

const DONE: u32 = 0;

/// The number of the version.
#[unsafe(no_mangle)]
pub extern "C" fn dimacs_version() -> u32
    ensures { result ≡ 200 }
{
    VERSION
}

/// 1 if the library is proved, otherwise 0.
#[unsafe(no_mangle)]
pub extern "C" fn dimacs_proved() -> u32
    ensures { result ≡ 1 }
{
    u32::from(PROVED)
}

/// Hands out the version, and what proved the library.
#[unsafe(no_mangle)]
pub extern "C" fn dimacs_version_text(out: &mut [u8], needed: &mut usize) -> u32
    ensures status { result ≡ 0 }
    ensures text { HandsOut proved_version (handed out.old out.new needed.new) }
{
    hand_out(version().as_bytes(), out, needed);
    DONE
}
