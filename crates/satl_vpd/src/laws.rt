//! What holds of the pages of vital product data.

ghost use Rattle.std.specs.Prelude.{◌≡◌};
ghost use Rattle.satl_cdb.specs.PrimaryCommands.{vital_pages};
ghost use Rattle.satl_vpd.specs.Vital.{page_codes};

/// The pages that there are, are those that INQUIRY may ask for (SPC-4, INQUIRY command).
pub fn inquiry_asks_for_these_pages()
    ensures { page_codes ≡ vital_pages }
{}
