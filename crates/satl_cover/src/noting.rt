// What is known of the frames that were read.
ghost use Rattle.std.specs.Prelude.{◌≡◌, ◌<◌, ◌+◌, ◌*◌, ◌++◌, [], ◌∷◌, List, ℕ, None, OnOk, IfOk, not, true};
ghost use Rattle.std.specs.BTreeSet.{BTreeSet};
ghost use Rattle.satl_frame.specs.declared.frames.Frame.{Frame};
ghost use Rattle.satl_frame.specs.Pulls.{cut_to};
ghost use Rattle.satl_cover.specs.Covered.{AreNames, Knows, is_covered, is_repeated, place_behind};

use crate::known::is_known_frame;
use satl_base::NoMemory;
use satl_frame::Frame;
use std::alloc::Global;
use std::collections::BTreeSet;

/// The frames so far: the names with which they asked, and the offset of the first that is not covered.
#[derive(Drop)]
pub struct Noted {
    /// Whether the drive has trim, which decides which CDBs are read.
    pub trim: bool,
    /// The nexus and tag of each request so far.
    pub names: BTreeSet<(u8, u32)>,
    /// The offset in bytes of the first frame that is not covered.
    pub uncovered: Option<u64>,
}

/// Adds the name of a request to those that frames before have asked with. False where it is one of them.
fn add_name(names: &mut BTreeSet<(u8, u32)>, frame: &Frame<'_>) -> Result<bool, NoMemory>
    ensures fresh { (earlier : List Frame) → AreNames earlier names.old
        → IfOk result (λ fresh. fresh ≡ not (is_repeated earlier frame.now)) }
    ensures names { (earlier : List Frame) → AreNames earlier names.old
        → OnOk result (AreNames (earlier ++ frame.now ∷ []) names.new) }
{
    match frame {
        Frame::Request(request) => {
            let name = (request.nexus.number(), request.tag.0);
            Ok(names.insert(name)?)
        }
        Frame::Manage(_) | Frame::Turn(_) | Frame::Bench(_) | Frame::End => Ok(true),
    }
}

/// Whether a frame is covered behind the earlier ones; then its name is added to theirs.
fn add_covered(
    names: &mut BTreeSet<(u8, u32)>,
    trim: bool,
    frame: &Frame<'_>,
) -> Result<bool, NoMemory>
    ensures covered { (earlier : List Frame) → AreNames earlier names.old
        → IfOk result (λ covered. covered ≡ is_covered trim earlier frame.now) }
    ensures names { (earlier : List Frame) → AreNames earlier names.old → is_covered trim earlier frame.now ≡ true
        → OnOk result (AreNames (earlier ++ frame.now ∷ []) names.new) }
{
    if !is_known_frame(trim, frame) {
        return Ok(false);
    }
    add_name(names, frame)
}

impl Noted {
    /// No frame was read.
    pub fn new(alloc: Global, trim: bool) -> Noted
        ensures trim { result.trim ≡ trim }
        ensures knows { Knows trim [] result.names result.uncovered }
    {
        Noted {
            trim,
            names: BTreeSet::new(alloc),
            uncovered: None,
        }
    }

    /// Takes note of the frame behind the earlier ones, at its offset.
    pub fn note(&mut self, at: u64, frame: &Frame<'_>) -> Result<(), NoMemory>
        ensures trim { self.new.trim ≡ self.old.trim }
        ensures knows { (earlier : List Frame) → (whole : Frame) → frame.now ≡ cut_to 0 whole → at ≡ place_behind earlier
            → Knows self.old.trim earlier self.old.names self.old.uncovered
            → OnOk result (Knows self.old.trim (earlier ++ whole ∷ []) self.new.names self.new.uncovered) }
    {
        if self.uncovered.is_some() {
            return Ok(());
        }
        if !add_covered(&mut self.names, self.trim, frame)? {
            self.uncovered = Some(at);
        }
        Ok(())
    }
}
