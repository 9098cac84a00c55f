//! Laws of the framing: what holds of the definitions alone.
ghost use Rattle.satl_frame.specs.Inputs.{FrameOrRefusal, NotBoth, OneWay};
ghost use Rattle.satl_frame.specs.Progress.{NextGiven, NoneRefused, OneEnd, RefusedThere};

/// Of any bytes from an offset behind the magic on, a whole frame stands there or a reason refuses them, and never both
/// (profile).
pub fn frame_or_refusal()
    ensures either { FrameOrRefusal }
    ensures not_both { NotBoth }
{}

/// No input is read in two ways: as many frames of it are the same frames, of the same version, and the same bytes
/// follow them (profile).
pub fn read_in_one_way()
    ensures { OneWay }
{}

/// What a reader refuses the grammar refuses: at that offset of the input and for that reason (profile).
pub fn refused_by_the_grammar()
    ensures { RefusedThere }
{}

/// An input that can be read to END is read: before END a reader refuses nothing and gives the next frame, and the frames up to
/// END and the bytes behind it are read in one way (profile).
pub fn read_to_the_end()
    ensures none_refused { NoneRefused }
    ensures next_given { NextGiven }
    ensures one_end { OneEnd }
{}
