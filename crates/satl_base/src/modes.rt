// Mode values.

/// The mode values that a host can change (SBC-3 6.4.5: WCE, DRA; SPC-4 7.5.8: D_SENSE).
#[derive(Clone, Copy, Debug, PartialEq, Eq)]
pub struct Modes {
    /// The write cache is on.
    pub wce: bool,
    /// Read-ahead is off.
    pub dra: bool,
    /// Sense data are in the descriptor form.
    pub d_sense: bool,
}

/// What a mode parameter list sets: each value that it has a page for (SPC-4, MODE SELECT(6) and (10)).
#[derive(Clone, Copy, Debug, Default, PartialEq, Eq)]
pub struct ModeChange {
    /// WCE, where the list has it: the write cache is on (SBC-3, Caching mode page).
    pub wce: Option<bool>,
    /// DRA, where the list has it: read look-ahead is off (SBC-3, Caching mode page).
    pub dra: Option<bool>,
    /// D_SENSE, where the list has it: sense data in the descriptor form (SPC-4, Control mode page).
    pub d_sense: Option<bool>,
}
