// Free pages, in the pieces in which they came back.
ghost use Rattle.std.specs.Prelude.{◌≡◌, ◌≤◌, ◌<◌, ◌+◌, ◌^◌, ◌↔◌, IfSome, IfNone, IsNone, OnSome, length};
ghost use Rattle.satl_pages.specs.Counts.{pages_in};

use arrayvec::ArrayVec;
use satl_base::Pages;
use std::marker::Model;
use std::mem;

/// Free pages. Those go out that came back in one piece of about the length that is asked for, of several such the last: a cache
/// still has them. A clause sees how many they are.
#[derive(Drop)]
pub(crate) struct Stock {
    // What came back, each in one piece: who takes as many pages as one has gets it without a walk along them. A walk is slow
    // where no cache has the pages.
    pieces: ArrayVec<Pages, 64>,
    // Those that never went out, that were too many for who took a piece, and that found no place among the pieces.
    others: Pages,
    count: u32,
}

impl Model for Stock {
    ghost use Rattle.std.specs.Prelude.{ℕ, ◌≡◌, ◌+◌, length};
    ghost use Rattle.satl_pages.specs.Counts.{pages_in};

    ghost Value = { ℕ };

    ghost view = { λ s. s.count };

    ghost invariant = { λ s. pages_in s.pieces.items + length s.others ≡ s.count };
}

impl Stock {
    /// Pages, all of which are free.
    pub(crate) fn of(pages: Pages) -> Stock
        ensures { result ≡ length pages }
    {
        Stock {
            pieces: ArrayVec::new(),
            count: pages.blocks(),
            others: pages,
        }
    }

    /// How many they are.
    pub(crate) fn count(&self) -> u32
        ensures { result ≡ self.now }
    {
        self.count
    }

    /// Takes `n` of them: a piece that came back, made as long. None exactly where they are fewer.
    pub(crate) fn take(&mut self, n: u32) -> Option<Pages>
        ensures fewer { IsNone result ↔ (self.old < n) }
        ensures none { IfNone result (self.new ≡ self.old) }
        ensures pages { IfSome result (λ pages. length pages ≡ n) }
        ensures rest { OnSome result (self.new + n ≡ self.old) }
    {
        if self.count < n {
            return None;
        }
        self.count -= n;
        match self.pieces.last() {
            Some(piece) if piece.blocks() == n => self.pieces.pop(),
            _ => Some(gather(&mut self.pieces, &mut self.others, n)),
        }
    }

    /// Takes pages back.
    pub(crate) fn give(&mut self, pages: Pages)
        requires { self.old + length pages < 2 ^ 32 }
        ensures { self.new ≡ self.old + length pages }
    {
        self.count += pages.blocks();
        if self.pieces.is_full() {
            put_by(pages, &mut self.others);
        } else {
            self.pieces.push(pages);
        }
    }

    /// Gives all of them to another stock.
    pub(crate) fn pour(&mut self, other: &mut Stock)
        requires { self.old + other.old < 2 ^ 32 }
        ensures none { self.new ≡ 0 }
        ensures all { other.new ≡ other.old + self.old }
    {
        join(&mut self.pieces, &mut self.others);
        self.count = 0;
        other.give(mem::take(&mut self.others));
    }
}

/// Takes `n` pages: the piece that is nearest in length, to which others are added, or from which the rest goes to others.
#[inline(never)]
fn gather(pieces: &mut ArrayVec<Pages, 64>, others: &mut Pages, n: u32) -> Pages
    requires enough { n ≤ pages_in pieces.old.items + length others.old }
    requires few { pages_in pieces.old.items + length others.old < 2 ^ 32 }
    ensures size { length result ≡ n }
    ensures rest { pages_in pieces.new.items + length others.new + n ≡ pages_in pieces.old.items + length others.old }
{
    if n == 0 {
        return Pages::default();
    }
    let mut pages = take_nearest(pieces, n);
    if pages.blocks() + others.blocks() < n {
        join(pieces, others);
    }
    fit(&mut pages, n, others);
    pages
}

/// Takes the piece whose length is nearest to `n`, where there is one.
fn take_nearest(pieces: &mut ArrayVec<Pages, 64>, n: u32) -> Pages
    ensures { pages_in pieces.new.items + length result ≡ pages_in pieces.old.items }
{
    match pieces.swap_pop(nearest(pieces.as_slice(), n)) {
        Some(piece) => piece,
        None => Pages::default(),
    }
}

/// The place of the piece whose length is nearest to `n`, of several such that of the last; 0 where there is none. No clause
/// needs to say so: any piece would do.
fn nearest(pieces: &[Pages], n: u32) -> usize {
    let mut best = 0;
    let mut least = u32::MAX;
    for place in (0..pieces.len()).rev() {
        let off = pieces[place].blocks().abs_diff(n);
        if off < least {
            least = off;
            best = place;
        }
        if off == 0 {
            break;
        }
    }
    best
}

/// Makes the pages exactly `n`: what is missing comes from others, and what is too many goes to them.
#[inline(never)]
pub(crate) fn fit(pages: &mut Pages, n: u32, others: &mut Pages)
    requires enough { n ≤ length pages.old + length others.old }
    requires few { length pages.old + length others.old < 2 ^ 32 }
    ensures size { length pages.new ≡ n }
    ensures all { length pages.new + length others.new ≡ length pages.old + length others.old }
{
    let count = pages.blocks();
    if count < n {
        others.move_first(n - count, pages);
    } else {
        pages.move_first(count - n, others);
    }
}

/// Puts these pages before the others, one by one.
fn put_by(pages: Pages, others: &mut Pages)
    requires { length pages + length others.old < 2 ^ 32 }
    ensures { length others.new ≡ length pages + length others.old }
{
    let mut pages = pages;
    pages.move_first(pages.blocks(), others);
}

/// Puts the pages of all pieces before the others, so that no piece is left.
fn join(pieces: &mut ArrayVec<Pages, 64>, others: &mut Pages)
    requires { pages_in pieces.old.items + length others.old < 2 ^ 32 }
    ensures none { pages_in pieces.new.items ≡ 0 }
    ensures all { length others.new ≡ pages_in pieces.old.items + length others.old }
{
    while let Some(piece) = pieces.pop() {
        put_by(piece, others);
    }
}
