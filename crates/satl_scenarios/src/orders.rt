//! Transfers that end out of order, as if each had ended on arrival, and the laws that speak of them.

ghost use Rattle.std.specs.Prelude.{◌≡◌, true, [], ◌∷◌};
ghost use Rattle.satl_laws.specs.Passing.{clash_at};
ghost use Rattle.satl_scenarios.specs.Orders.{IsOfArrivalOrder, IsOfOrderUnderErrors, IsOfPassing, four_waiting, passed_where_apart, reads_second, reads_two, torn_out_of_order, writes_second, writes_third, written_out_of_order};
ghost use Rattle.satl_scenarios.specs.Scenario.{CanHappen};

/// Two WRITEs and a READ over both, sent without waiting, end out of order, and the READ gives both blocks; the law of arrival
/// order speaks of this run (SAM-5 8; SBC-3 5).
pub fn transfers_out_of_order()
    ensures run { CanHappen written_out_of_order }
    ensures law { IsOfArrivalOrder written_out_of_order }
{}

/// A WRITE is torn by a CRC error after a later one has ended, and a READ over both gives what was written; then the link is
/// lost. The law of order under errors speaks of this run (SAM-5 8; SPC-4 4.5.6; profile).
pub fn a_torn_write_out_of_order()
    ensures run { CanHappen torn_out_of_order }
    ensures law { IsOfOrderUnderErrors torn_out_of_order }
{}

/// A WRITE ends before three tasks that do not go over its sector, and a READ before one that overlaps it; the WRITE of what
/// both read waits for them. The law of passing speaks of these (SAM-5 8; SBC-3 5).
pub fn transfers_that_pass_where_they_may()
    ensures run { CanHappen passed_where_apart }
    ensures write { IsOfPassing four_waiting (reads_two ∷ reads_second ∷ writes_second ∷ []) writes_third }
    ensures read { IsOfPassing four_waiting (reads_two ∷ []) reads_second }
    ensures first_held { clash_at 1 reads_two writes_second ≡ true }
    ensures second_held { clash_at 1 reads_second writes_second ≡ true }
{}
