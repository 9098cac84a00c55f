// A pool of pages.
ghost use Rattle.std.specs.Prelude.{◌≡◌, ◌≤◌, ◌<◌, ◌+◌, ◌^◌, ◌↔◌, IfOk, IfSome, IfNone, IsNone, OnSome, length};
ghost use Rattle.satl_pages.specs.Counts.{number_of, pages_in};

use crate::stock::Stock;
use satl_base::{Lender, NoMemory, Pages};
use std::alloc::Global;
use std::marker::Model;

/// A fixed number of pages of 512 bytes, each of which is free or out (profile). Clauses see how many are free and
/// how many are out; their sum is the pool's number, which no call changes.
#[derive(Drop)]
pub struct Pool {
    data: Stock,
    // Apart from the others: who writes gets pages that were written not long ago, and not those that lay empty.
    rooms: Stock,
    number: u32,
}

impl Model for Pool {
    ghost use Rattle.std.specs.Prelude.{◌≤◌, ◌<◌, ◌+◌, ◌-◌, ◌^◌};
    ghost use Rattle.satl_pages.specs.Counts.{Counts};

    ghost Value = { Counts };

    ghost view = { λ p. record { free = p.data + p.rooms; out = p.number - (p.data + p.rooms) } };

    ghost invariant = { λ p. (p.data + p.rooms ≤ p.number) × (p.number < 2 ^ 32) };
}

impl Pool {
    /// A pool of `n` pages, all of them free. The error is want of memory (profile).
    pub fn new(alloc: Global, n: u32) -> Result<Pool, NoMemory>
        ensures free { IfOk result (λ pool. pool.free ≡ n) }
        ensures out { IfOk result (λ pool. pool.out ≡ 0) }
    {
        Ok(Pool {
            data: Stock::of(Pages::zeroed(alloc, n)?),
            rooms: Stock::of(Pages::default()),
            number: n,
        })
    }

    /// How many pages the pool has, free or out (profile).
    pub fn number(&self) -> u32
        ensures { result ≡ number_of self.now }
    {
        self.number
    }

    /// How many pages are free (profile).
    pub fn free(&self) -> u32
        ensures { result ≡ self.now.free }
    {
        self.data.count() + self.rooms.count()
    }

    /// Takes `n` pages, with whatever they hold. None exactly where fewer are free. It takes no memory (profile).
    pub fn take(&mut self, n: u32) -> Option<Pages>
        ensures fewer { IsNone result ↔ (self.old.free < n) }
        ensures none { IfNone result (self.new ≡ self.old) }

        ensures pages { IfSome result (λ pages. length pages ≡ n) }
        ensures free { OnSome result (self.new.free + n ≡ self.old.free) }
        ensures out { OnSome result (self.new.out ≡ self.old.out + n) }
        ensures none_lost { number_of self.new ≡ number_of self.old }
    {
        if self.data.count() < n {
            if self.free() < n {
                return None;
            }
            self.rooms.pour(&mut self.data);
        }
        self.data.take(n)
    }

    /// Takes pages back, at most as many as are out. It takes no memory (profile).
    pub fn give(&mut self, pages: Pages)
        requires { length pages ≤ self.old.out }
        ensures free { self.new.free ≡ self.old.free + length pages }
        ensures out { self.new.out + length pages ≡ self.old.out }
        ensures none_lost { number_of self.new ≡ number_of self.old }
    {
        if pages.blocks() > 0 {
            self.data.give(pages);
        }
    }

    /// Takes `n` pages as `take` does, for data that come later: mostly those that came back last by `give_room` (profile).
    pub fn take_room(&mut self, n: u32) -> Option<Pages>
        ensures fewer { IsNone result ↔ (self.old.free < n) }
        ensures none { IfNone result (self.new ≡ self.old) }

        ensures pages { IfSome result (λ pages. length pages ≡ n) }
        ensures free { OnSome result (self.new.free + n ≡ self.old.free) }
        ensures out { OnSome result (self.new.out ≡ self.old.out + n) }
        ensures none_lost { number_of self.new ≡ number_of self.old }
    {
        match self.rooms.take(n) {
            Some(room) => Some(room),
            None => self.take(n),
        }
    }

    /// Takes pages back as `give` does, to be given out again by `take_room`, and by `take` where no others are left (profile).
    pub fn give_room(&mut self, pages: Pages)
        requires { length pages ≤ self.old.out }
        ensures free { self.new.free ≡ self.old.free + length pages }
        ensures out { self.new.out + length pages ≡ self.old.out }
        ensures none_lost { number_of self.new ≡ number_of self.old }
    {
        if pages.blocks() > 0 {
            self.rooms.give(pages);
        }
    }
}

/// A pool keeps nothing beside its pages (profile).
impl Lender for Pool {
    type Rest = ();

    ghost stock = { λ p. record { free = p.free; out = p.out; rest = tt } };

    fn room(&self) -> u32 {
        self.free()
    }

    fn lend(&mut self, n: u32) -> Pages {
        let Some(pages) = self.take(n) else {
            unreachable!();
        };
        pages
    }

    fn give_back(&mut self, pages: Pages) {
        self.give(pages);
    }
}

#[cfg(test)]
mod tests {
    use super::*;
    use satl_base::Block;
    use std::test::Fail;

    #[test]
    fn takes_all_and_no_more(rt: HostRuntime) -> Result<(), Fail> {
        // The second is as long as a chain gets: all pages of the layer at once.
        for number in [4, 32960] {
            let mut pool = Pool::new(rt.alloc(), number)?;
            assert!(rt; pool.take(number + 1).is_none());
            let pages = pool.take(number).expect(&rt, "pages");
            assert_eq!(rt;
                (pages.blocks(), pool.free(), pool.number()),
                (number, 0, number)
            );
            assert!(rt; pool.take(1).is_none());
            pool.give(pages);
            assert_eq!(rt; pool.free(), number);
            drop(pool.lend(number));
        }
        Ok(())
    }

    #[test]
    fn pieces_that_came_back(rt: HostRuntime) -> Result<(), Fail> {
        let mut pool = Pool::new(rt.alloc(), 6)?;
        let two = pool.take(2).expect(&rt, "two pages");
        let three = pool.take(3).expect(&rt, "three pages");
        pool.give(two);
        pool.give(three);
        // The last piece as it is, then a part of the other one, and then the rest of it with what never went out.
        assert_eq!(rt; pool.take(3).expect(&rt, "the last piece").blocks(), 3);
        assert_eq!(rt; pool.take(1).expect(&rt, "a part").blocks(), 1);
        assert_eq!(rt; pool.take(2).expect(&rt, "all others").blocks(), 2);
        assert!(rt; pool.take(1).is_none());
        Ok(())
    }

    #[test]
    fn rooms_that_came_back(rt: HostRuntime) -> Result<(), Fail> {
        let mut pool = Pool::new(rt.alloc(), 4)?;
        let mut room = pool.take_room(2).expect(&rt, "two pages");
        room.set_block(0, &Block { bytes: [7; 512] });
        pool.give_room(room);
        // Others than the room, then the room, and then none is left.
        assert_eq!(rt; pool.take(2).expect(&rt, "others").block(0).bytes[0], 0);
        let room = pool.take_room(2).expect(&rt, "the room");
        assert_eq!(rt; room.block(0).bytes[0], 7);
        assert!(rt; pool.take_room(1).is_none());
        pool.give_room(room);
        // Where no other page is free, those of a room go out.
        assert_eq!(rt; pool.take(1).expect(&rt, "a page of the room").blocks(), 1);
        Ok(())
    }
}
