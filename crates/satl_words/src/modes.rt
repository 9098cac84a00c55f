// What words can ask for.

/// What the program is to do (profile).
#[derive(Clone, Copy, Debug, PartialEq, Eq)]
pub enum Mode {
    /// `replay`: answers are written as frames.
    Replay,
    /// `show`: answers are written as lines of text.
    Show,
    /// `usb`: commands on the wire of USB Bulk-Only Transport are carried out, and answered there.
    Usb,
    /// `audit`: a recorded run is judged.
    Audit,
    /// `gen --seed N --requests N`: a generated input is served, and its totals are written.
    Generate { seed: u64, requests: u32 },
}

/// The most requests of a generated input (profile).
pub const MOST_REQUESTS: u32 = 100_000;
