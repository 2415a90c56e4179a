//! What this build is: its version, and whether it is proved.

ghost use Rattle.std.specs.Prelude.{◌≡◌};
ghost use Rattle.dimacs_jobs.specs.Version.{proved_version};

/// Whether this build is proved. The kit builds only what it proved. What builds without proofs, `tools/quick_build.py`,
/// compiles a copy of this file with `false` here.
pub const PROVED: bool = true;

/// The version of a build that is proved, and the logic of the kit that proved it, as `rt version` names it.
const PROVED_VERSION: &str = "0.2.0-dev (proved by Rattle, logic dac8208d650f15bf)";

const UNPROVED_VERSION: &str = "0.2.0-dev (not proved)";

/// The version, and whether this build is proved.
pub fn version() -> &'static str
    ensures { result.now ≡ proved_version }
{
    if PROVED {
        PROVED_VERSION
    } else {
        UNPROVED_VERSION
    }
}
