// The output, and how far it was compared.
ghost use Rattle.std.specs.Prelude.{◌≡◌, ◌<◌, ◌++◌, ◌==◌, List, ℕ, true, false, None, IfSome, length};

use std::marker::Model;

/// Bytes of the output that are left to compare. A clause sees the bytes.
#[derive(Drop)]
pub struct Cursor<'a> {
    rest: &'a [u8],
}

impl<'a> Model for Cursor<'a> {
    ghost use Rattle.std.specs.Prelude.{ℕ, List};

    ghost Value = { List ℕ };

    ghost view = { λ c. c.rest.now };
}

impl<'a> Cursor<'a> {
    /// Nothing was compared.
    pub fn new(rest: &'a [u8]) -> Cursor<'a>
        ensures { result ≡ rest.now }
    {
        Cursor { rest }
    }

    /// What is left.
    pub fn rest(&self) -> &'a [u8]
        ensures { result.now ≡ self.now }
    {
        self.rest
    }

    /// Whether these bytes come next; then they are passed.
    pub fn pass(&mut self, bytes: &[u8]) -> bool
        ensures passed { result ≡ true → self.old ≡ bytes.now ++ self.new }
        ensures other { result ≡ false → (rest : List ℕ) → self.old ≡ bytes.now ++ rest → ⊥ }
    {
        match self.rest.strip_prefix(bytes) {
            Some(rest) => {
                self.rest = rest;
                true
            }
            None => false,
        }
    }

    /// The next bytes, as many as that. None exactly where fewer are left.
    pub fn take(&mut self, count: usize) -> Option<&'a [u8]>
        ensures taken { IfSome result (λ given. self.old ≡ given.now ++ self.new) }
        ensures size { IfSome result (λ given. length given.now ≡ count) }
        ensures none { result ≡ None → length self.old < count }
    {
        let (given, rest) = self.rest.split_at_checked(count)?;
        self.rest = rest;
        Some(given)
    }
}
