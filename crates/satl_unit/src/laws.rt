//! What holds of posted conditions and of function codes, whatever they are.
ghost use Rattle.std.specs.Prelude.{◌≡◌, ◌||◌, ℕ, List, Some};
ghost use Rattle.satl_unit.specs.declared.attention.Attention.{Attention};
ghost use Rattle.satl_unit.specs.declared.function.Function.{Function};
ghost use Rattle.satl_unit.specs.Conditions.{IsInReportOrder, is_posted, is_same, posted};
ghost use Rattle.satl_unit.specs.Functions.{function_of};

/// Posted conditions are a set: after one is posted, it and those that were there are posted, in the order of report, and
/// neither the order of posting nor posting again makes a difference (SAM-5 5.14).
pub fn posted_conditions_are_a_set()
    ensures members { (what a : Attention) (conditions : List Attention) →
        is_posted a (posted what conditions) ≡ (is_same a what || is_posted a conditions) }
    ensures order { (what : Attention) (conditions : List Attention) → IsInReportOrder (posted what conditions) }
    ensures either { (a b : Attention) (conditions : List Attention) →
        posted a (posted b conditions) ≡ posted b (posted a conditions) }
    ensures again { (a : Attention) (conditions : List Attention) →
        posted a (posted a conditions) ≡ posted a conditions }
{}

/// No function has two codes (profile).
pub fn function_codes_differ()
    ensures { (a b : ℕ) (function : Function) →
        function_of a ≡ Some function → function_of b ≡ Some function → a ≡ b }
{}
