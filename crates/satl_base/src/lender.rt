// What lends pages.
ghost use Rattle.std.specs.Prelude.{◌≡◌, ◌≤◌, length};
ghost use Rattle.satl_base.specs.Stocks.{HasBack, HasLent, Stock};

use crate::pages::Pages;

/// A store of pages (profile). Contracts see its stock: how many of its pages are free, how many are out, and the rest, all
/// that it keeps beside its free pages, which no call here changes.
pub trait Lender {
    /// What the lender keeps beside its free pages.
    type Rest;

    /// How many pages are free, how many are out: lent, and not given back; and the rest.
    ghost stock: { Self → Stock Self.Rest };

    /// The number of pages free (profile).
    fn room(&self) -> u32
        ensures { result ≡ (stock self.now).free };

    /// Lends n pages of 512 bytes, with whatever they hold (profile). It takes no memory.
    fn lend(&mut self, n: u32) -> Pages
        requires { n ≤ (stock self.old).free }
        ensures pages { length result ≡ n }
        ensures lent { HasLent n (stock self.old) (stock self.new) };

    /// Takes pages of 512 bytes back (profile). It takes no memory.
    fn give_back(&mut self, pages: Pages)
        requires { length pages ≤ (stock self.old).out }
        ensures { HasBack (length pages) (stock self.old) (stock self.new) };
}
