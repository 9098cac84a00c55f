//! What holds of the mode pages.

ghost use Rattle.std.specs.Prelude.{◌≡◌, ◌++◌, ◌∷◌, [], map};
ghost use Rattle.satl_cdb.specs.PrimaryCommands.{mode_pages};
ghost use Rattle.satl_mode.specs.declared.page.ModePage.{ModePage};
ghost use Rattle.satl_mode.specs.ModePages.{all_pages, row_of};
ghost use Rattle.satl_mode.specs.Shown.{GivesWhatWasShown};

/// The pages that there are, and 3Fh for all of them, are those that MODE SENSE may ask for (SPC-4, MODE SENSE commands).
pub fn mode_sense_asks_for_these_pages()
    ensures { map (λ (p : ModePage). (row_of p).code) all_pages ++ 0x3F ∷ [] ≡ mode_pages }
{}

/// A MODE SELECT of what MODE SENSE showed gives the modes that were shown (SPC-4, MODE SELECT commands).
pub fn selecting_what_is_shown_gives_it()
    ensures { GivesWhatWasShown }
{}
