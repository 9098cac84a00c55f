// What holds of the whole table of operation codes.

ghost use Rattle.std.specs.Prelude.{◌≡◌, Bool, true, length};
ghost use Rattle.satl_cdb.specs.Table.{table};
ghost use Rattle.satl_cdb.specs.Laws.{all_rules_ascend, codes_ascend};

/// The rules of each row stand by ascending byte, so the refusal is that of the lowest byte at fault (profile).
pub fn rules_ascend()
    ensures { (trim : Bool) → all_rules_ascend (table trim) ≡ true }
{}

/// The rows stand by ascending operation code, so no code has two (SPC-4, SBC-3, SAT-3).
pub fn codes_ascend()
    ensures { (trim : Bool) → codes_ascend (table trim) ≡ true }
{}
