// What holds of sense data in the descriptor form.

ghost use Rattle.std.specs.Prelude.{◌≡◌};
ghost use Rattle.satl_sense.specs.Descriptor.{descriptor_form, FitsForm};

use crate::sense::Sense;

/// The descriptor form tells all: no two sense data have the same bytes in it (SPC-4 4.5.2).
pub fn forms_differ()
    ensures { (s t : Sense) → FitsForm s → FitsForm t → descriptor_form s ≡ descriptor_form t → s ≡ t }
{}
