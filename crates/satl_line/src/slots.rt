// Slots, as the bits of a number.
ghost use Rattle.std.specs.Prelude.{◌≡◌, ◌≤◌, ◌<◌, ◌==◌, ℕ, if◌then◌else◌, length, drop};
ghost use Rattle.std.specs.Int.{bit_at};
ghost use Rattle.std.specs.List.{AllByRecursion, position_from};

/// Whether a slot is among these, the bits of a number (profile).
pub fn has_slot(slots: u64, slot: u8) -> bool
    requires { slot < 64 }
    ensures { bit_at slots slot ≡ (if result then 1 else 0) }
{
    (slots >> slot) & 1 == 1
}

/// The lowest of some slots, the bits of a number.
pub(crate) fn lowest_slot(slots: u64) -> u8
    requires { 0 < slots }
    ensures small { result < 64 }
    ensures among { bit_at slots result ≡ 1 }
    ensures lowest { (slot : ℕ) → slot < result → bit_at slots slot ≡ 0 }
{
    slots.trailing_zeros() as u8
}

/// The first place, from this one on, whose slot is not among these. None exactly where there is none.
pub(crate) fn first_outside(order: &[u8], from: usize, slots: u64) -> Option<usize>
    requires small { AllByRecursion (λ slot. slot < 64) order.now }
    requires within { from ≤ length order.now }
    ensures { result ≡ position_from (λ slot. bit_at slots slot == 0) from (drop from order.now) }
{
    for place in from..order.len() {
        if !has_slot(slots, order[place]) {
            return Some(place);
        }
    }
    None
}
