// How far a search over the places has come.
ghost use Rattle.std.specs.Prelude.{◌≡◌, ◌≤◌, ◌<◌, ◌==◌, ℕ, List, drop, length, remove};
ghost use Rattle.std.specs.Int.{bit_at};
ghost use Rattle.std.specs.List.{AllByRecursion, position_from};
ghost use Rattle.satl_line.specs.Layout.{HasPassed};
ghost use Rattle.satl_line.specs.Tasks.{count_of};

/// What a search for a slot outside some has passed: the slots at so many first places, as the bits of a number, which may have
/// more. A search among slots that have all of these begins behind the places.
#[derive(Clone, Copy)]
pub(crate) struct Passed {
    slots: u64,
    places: usize,
}

impl Passed {
    /// No place.
    pub fn none() -> Passed
        ensures { (order : List ℕ) → HasPassed order result }
    {
        Passed {
            slots: 0,
            places: 0,
        }
    }

    /// The places before the first whose slot is not among these.
    pub fn before(order: &[u8], found: Option<usize>, slots: u64) -> Passed
        requires { found ≡ position_from (λ slot. bit_at slots slot == 0) 0 order.now }
        ensures { HasPassed order.now result }
    {
        Passed {
            slots,
            places: found.unwrap_or(order.len()),
        }
    }

    /// Where a search from a place on for a slot outside these may begin, with the same end.
    pub fn start(self, order: &[u8], from: usize, slots: u64) -> usize
        requires passed { HasPassed order.now self }
        requires small { AllByRecursion (λ slot. slot < 64) order.now }
        requires within { from ≤ length order.now }
        ensures within { result ≤ length order.now }
        ensures same { position_from (λ slot. bit_at slots slot == 0) result (drop result order.now)
            ≡ position_from (λ slot. bit_at slots slot == 0) from (drop from order.now) }
    {
        if from <= self.places && self.slots & !slots == 0 {
            self.places
        } else {
            from
        }
    }

    /// What is passed once the place of a slot is gone.
    pub fn without(self, place: usize, slot: u8) -> Passed
        requires { slot < 64 }
        ensures { (order : List ℕ) → place < length order → AllByRecursion (λ slot. slot < 64) (remove order place)
            → count_of slot (remove order place) ≡ 0 → HasPassed order self → HasPassed (remove order place) result }
    {
        Passed {
            slots: self.slots & !(1 << slot),
            places: if place < self.places {
                self.places - 1
            } else {
                self.places
            },
        }
    }
}
