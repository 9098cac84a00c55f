// A lender without pages: requests come without their data-out.

use satl_base::{Lender, Pages};

/// Lends no page, so that requests are read without their data-out (profile).
#[derive(Drop)]
pub struct NoPages;

impl Lender for NoPages {
    type Rest = ();

    ghost stock = { λ _. record { free = 0; out = 0; rest = tt } };

    fn room(&self) -> u32 {
        0
    }

    fn lend(&mut self, _n: u32) -> Pages {
        Pages::default()
    }

    fn give_back(&mut self, pages: Pages) {
        drop(pages);
    }
}
