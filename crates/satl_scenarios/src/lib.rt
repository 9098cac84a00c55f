//! Runs of the direct device that exist: a few events with the answers to each, and the device that they leave. They show that
//! its definitions are not empty words.
#![tactic(auto)]

pub mod arrivals;
pub mod commands;
pub mod flaws;
pub mod functions;
pub mod links;
pub mod orders;
pub mod passes;
pub mod power;
pub mod standby;
pub mod transfers;

ghost use Rattle.std.specs.Prelude.{◌≡◌, ◌<◌, ℕ};
ghost use Rattle.satl_direct.specs.Valid.{IsValid};
ghost use Rattle.satl_identify.specs.Refusals.{IsIdentity};
ghost use Rattle.satl_scenarios.specs.Waiting.{two_waiting};
ghost use Rattle.satl_scenarios.specs.Devices.{never_written, full_of};

/// The device that most of these start from is valid, with any number of sectors below 256 (profile).
pub fn blank_devices_are_valid()
    ensures { (count : ℕ) → 0 < count → count < 256 → IsValid (never_written count) }
{}

/// A device with commands that wait may be valid too (profile).
pub fn waiting_devices_are_valid()
    ensures { IsValid two_waiting }
{}

/// What such a device says of itself is what a drive of so many sectors may say (ACS-3 7.12.7).
pub fn blank_devices_are_real()
    ensures { (count : ℕ) → 0 < count → count < 256 → IsIdentity (never_written count).identity }
{}

/// Blocks that are filled with different bytes are different (profile).
pub fn filled_blocks_differ()
    ensures { (a b : ℕ) → full_of a ≡ full_of b → a ≡ b }
{}
