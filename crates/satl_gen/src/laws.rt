//! Laws of the generated input: what holds of the definitions alone.
ghost use Rattle.satl_gen.specs.Laws.{ReadsWhole};

/// A generated input of up to 100,000 requests can be read to END within 2^40 bytes, and nothing stands behind END (profile).
pub fn generated_input_is_read_to_the_end()
    ensures { ReadsWhole }
{}
