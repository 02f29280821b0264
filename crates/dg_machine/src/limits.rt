//! The bounds within which a session works, and the standard ones.
ghost use Rattle.std.specs.Prelude.{◌≡◌, ◌^◌, ◌-◌};
ghost use Rattle.dg_history.specs.declared.limits.TheConstants.{EVENTS_MAX, FILE_BYTES_MAX};
ghost use Rattle.dg_machine.specs.declared.command.TheConstants.{TIMES_MAX};

use dg_history::{EVENTS_MAX, FILE_BYTES_MAX};

/// The bounds within which a session works. A test may set them lower than the standard.
#[derive(Clone, Copy)]
pub struct Limits {
    /// How many bytes of the script may be taken. A script has to have fewer.
    pub script_bytes: u64,
    /// How many events a history may have.
    pub events: u64,
    /// How many bytes of the index file may be in use.
    pub file_bytes: u64,
    /// The number of the first handle.
    pub first_handle: u32,
}

/// The bytes of a script, at the standard limits: a script has fewer.
pub const SCRIPT_BYTES_MAX: u64 = 1_099_511_627_776;

/// The most handles that live at one time.
pub const LIVE_HANDLES_MAX: usize = 127;

/// The most node attributes that are indexed at one time.
pub const INDEXES_MAX: usize = 16;

/// The number of the first handle, at the standard limits. No handle has a lower one.
pub const FIRST_HANDLE: u32 = 1;

/// The greatest number of a handle.
pub const HANDLE_MAX: u32 = u32::MAX;

impl Limits {
    /// The limits of the program.
    pub fn standard() -> Limits
        ensures { result ≡ record { script_bytes = SCRIPT_BYTES_MAX; events = EVENTS_MAX; file_bytes = FILE_BYTES_MAX; first_handle = FIRST_HANDLE } }
    {
        Limits {
            script_bytes: SCRIPT_BYTES_MAX,
            events: EVENTS_MAX,
            file_bytes: FILE_BYTES_MAX,
            first_handle: FIRST_HANDLE,
        }
    }
}

/// The limits as numbers: bytes of a script, handles that live, the first of them, the greatest number of one,
/// instants of one command, and indexed attributes.
/// Does nothing.
pub fn machine_limits()
    ensures script { SCRIPT_BYTES_MAX ≡ 2 ^ 40 }
    ensures live { LIVE_HANDLES_MAX ≡ 127 }
    ensures first { FIRST_HANDLE ≡ 1 }
    ensures greatest { HANDLE_MAX ≡ 2 ^ 32 - 1 }
    ensures times { TIMES_MAX ≡ 32 }
    ensures indexes { INDEXES_MAX ≡ 16 }
{}
