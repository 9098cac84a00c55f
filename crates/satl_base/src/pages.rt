// Pages of one block each.
ghost use Rattle.std.specs.Prelude.{◌≡◌, ◌<◌, ◌≤◌, ◌+◌, ◌*◌, ◌^◌, List, [], ◌∷◌, ◌++◌, IfOk, IsSome, ◌↔◌, length, take, drop, replicate, slice_index_or, slice_set, option_to_list, reverse};
ghost use Rattle.satl_base.specs.Blocks.{zero_block, blocks_from, first_bytes};

use crate::block::Block;
use crate::chain::{Chain, Node, shift_filled, shift_many};
use std::alloc::{AllocError, AllocFailed, Global};
use std::marker::Model;
use std::mem;

/// Memory ran out, and nothing else happened (profile).
#[derive(Clone, Copy, Debug, PartialEq, Eq)]
pub struct NoMemory;

impl From<AllocError> for NoMemory {
    fn from(_: AllocError) -> NoMemory {
        NoMemory
    }
}

impl<T: Drop> From<AllocFailed<T>> for NoMemory {
    fn from(_: AllocFailed<T>) -> NoMemory {
        NoMemory
    }
}

/// One page of 512 bytes by itself (profile). A clause sees its block.
#[derive(Drop)]
pub struct Page {
    node: Box<Node>,
}

impl Model for Page {
    ghost use Rattle.satl_base.specs.declared.block.Block.{Block};

    ghost Value = { Block };

    ghost view = { λ p. p.node.value.block };
}

impl Page {
    ghost use Rattle.std.specs.Borrow.{sem};
    ghost use Rattle.satl_base.specs.Lending.{LendsBlock};

    /// A page of 512 zeros (profile). It takes memory for one block, and fails where there is none.
    pub fn zeroed(alloc: Global) -> Result<Page, NoMemory>
        ensures { IfOk result (λ p. p ≡ zero_block) }
    {
        Ok(Page {
            node: Box::new(
                alloc,
                Node {
                    block: Block::zero(),
                    next: Chain::End,
                },
            )?,
        })
    }

    /// The block of 512 bytes in the page (profile).
    pub fn block(&self) -> &Block
        ensures { result.now ≡ self.now }
    {
        &self.node.block
    }

    /// The block of 512 bytes in the page, for writing (profile).
    pub fn block_mut(&mut self) -> &mut Block
        ensures* writes_back { sem 𝓛 (LendsBlock self.entry result) }
        ensures value { result.now ≡ self.old }
    {
        let node = &mut self.node;
        &mut node.block
    }

    /// Writes the block of 512 bytes in the page (profile).
    pub fn set(&mut self, block: &Block)
        ensures { self.new ≡ block.now }
    {
        self.node.block = *block;
    }
}

/// A list of blocks of 512 bytes, each in a page of its own: a chain of boxed pages (profile). A clause sees the blocks.
/// Work on all of them costs the same a page: take pages off and put them on, or read them by `iter`. Fewer than 2^32
/// pages.
#[derive(Drop)]
pub struct Pages {
    first: Chain,
    count: u32,
}

impl Model for Pages {
    ghost use Rattle.std.specs.Prelude.{List, ◌≡◌, length};
    ghost use Rattle.satl_base.specs.declared.block.Block.{Block};

    ghost Value = { List Block };

    ghost use Rattle.satl_base.specs.Chains.{blocks_of};

    ghost view = { λ p. blocks_of p.first };

    ghost invariant = { λ p. p.count ≡ length (blocks_of p.first) };
}

impl Default for Pages {
    ghost use Rattle.std.specs.Prelude.{◌≡◌, []};

    ghost is_default = { λ p. p ≡ [] };

    fn default() -> Pages {
        Pages {
            first: Chain::End,
            count: 0,
        }
    }
}

impl Pages {
    /// No page (profile). It takes no memory.
    pub fn none(_alloc: Global) -> Pages
        ensures { result ≡ [] }
    {
        Pages::default()
    }

    /// n pages of 512 zeros (profile). It takes memory for each, and fails where there is none.
    pub fn zeroed(alloc: Global, n: u32) -> Result<Pages, NoMemory>
        ensures { IfOk result (λ p. p ≡ replicate n zero_block) }
    {
        let mut pages = Pages::none(alloc);
        for _ in 0..n {
            pages.push_first(Page::zeroed(alloc)?);
        }
        Ok(pages)
    }

    /// The number of pages (profile).
    pub fn blocks(&self) -> u32
        ensures count { result ≡ length self.now }
        ensures fits { length self.now < 2 ^ 32 }
    {
        self.count
    }

    /// The block at place i, counted from 0 (profile). It walks there: to read them all, take `iter`.
    pub fn block(&self, i: u32) -> &Block
        requires { i < length self.now }
        ensures { result.now ≡ slice_index_or self.now i result.now }
    {
        self.first.block(i)
    }

    /// Writes the block at place i, counted from 0 (profile). It walks there and back.
    pub fn set_block(&mut self, i: u32, block: &Block)
        requires { i < length self.old }
        ensures { self.new ≡ slice_set self.old i block.now }
    {
        let mut front = Chain::End;
        shift_many(&mut self.first, &mut front, i);
        self.first.set_first(block);
        shift_many(&mut front, &mut self.first, i);
    }

    /// The blocks, in order (profile).
    pub fn iter(&self) -> Blocks<'_>
        ensures { result ≡ self.now }
    {
        Blocks { rest: &self.first }
    }

    /// The first len bytes of the blocks, in order, in pieces of 512 bytes and a shorter one at the end (profile).
    pub fn pieces(&self, len: u32) -> Pieces<'_>
        ensures { result ≡ first_bytes len self.now }
    {
        Pieces {
            blocks: self.iter(),
            left: len as usize,
        }
    }

    /// Puts a page before the others (profile). It takes no memory.
    pub fn push_first(&mut self, page: Page)
        requires { length self.old + 1 < 2 ^ 32 }
        ensures { self.new ≡ page ∷ self.old }
    {
        let Page { mut node } = page;
        node.next = mem::replace(&mut self.first, Chain::End);
        self.first = Chain::More(node);
        self.count += 1;
    }

    /// Takes the first page off (profile). None exactly where there is no page.
    pub fn pop_first(&mut self) -> Option<Page>
        ensures items { self.old ≡ option_to_list result ++ self.new }
        ensures variant { IsSome result ↔ (0 < length self.old) }
        ensures len { length self.new + length (option_to_list result) ≡ length self.old }
    {
        let mut node = mem::replace(&mut self.first, Chain::End).into_node()?;
        mem::swap(&mut self.first, &mut node.next);
        self.count -= 1;
        Some(Page { node })
    }

    /// Turns the order of the pages round (profile).
    pub fn reverse(&mut self)
        ensures { self.new ≡ reverse self.old }
    {
        let mut done = Chain::End;
        shift_many(&mut self.first, &mut done, self.count);
        self.first = done;
    }

    /// Moves the first n pages before the others' first, one by one, so that their order turns round (profile).
    pub fn move_first(&mut self, n: u32, others: &mut Pages)
        requires enough { n ≤ length self.old }
        requires few { length others.old + n < 2 ^ 32 }
        ensures moved { others.new ≡ reverse (take n self.old) ++ others.old }
        ensures rest { self.new ≡ drop n self.old }
    {
        if n == 0 {
            return;
        }
        shift_many(&mut self.first, &mut others.first, n);
        self.count -= n;
        others.count += n;
    }

    /// Fills the first n pages from the front of the bytes, 512 in each, in order, and moves them before the others' first, one
    /// by one, so that their order turns round (profile).
    pub fn move_filled(&mut self, n: u32, bytes: &[u8], others: &mut Pages)
        requires enough { n ≤ length self.old }
        requires few { length others.old + n < 2 ^ 32 }
        requires long { 512 * n ≤ length bytes.now }
        ensures moved { others.new ≡ reverse (blocks_from n bytes.now) ++ others.old }
        ensures rest { self.new ≡ drop n self.old }
    {
        shift_filled(&mut self.first, &mut others.first, bytes, n);
        self.count -= n;
        others.count += n;
    }

    /// Keeps the first n pages, and gives the others (profile). It takes no memory.
    pub fn split(&mut self, n: u32) -> Pages
        requires { n ≤ length self.old }
        ensures kept { self.new ≡ take n self.old }
        ensures rest { result ≡ drop n self.old }
    {
        if n == self.count {
            return Pages::default();
        }
        let mut front = Chain::End;
        shift_many(&mut self.first, &mut front, n);
        let first = mem::replace(&mut self.first, Chain::End);
        let count = self.count - n;
        shift_many(&mut front, &mut self.first, n);
        self.count = n;
        Pages { first, count }
    }

    /// Keeps the first n pages, and drops the others (profile).
    pub fn keep(&mut self, n: u32)
        requires { n ≤ length self.old }
        ensures { self.new ≡ take n self.old }
    {
        let others = self.split(n);
        drop(others);
    }
}

/// The blocks that are left to read, in order (profile).
#[derive(Drop)]
pub struct Blocks<'a> {
    rest: &'a Chain,
}

impl<'a> Model for Blocks<'a> {
    ghost use Rattle.std.specs.Prelude.{List};
    ghost use Rattle.satl_base.specs.declared.block.Block.{Block};

    ghost Value = { List Block };

    ghost use Rattle.satl_base.specs.Chains.{blocks_of};

    ghost view = { λ p. blocks_of p.rest.now };
}

impl<'a> Iterator for Blocks<'a> {
    type Item = &'a Block;

    ghost use Rattle.std.specs.Iterator.{YieldsFirstRef, item_count};

    ghost next_gives = { YieldsFirstRef (λ s. s) };

    ghost remaining = { item_count (λ s. s) };

    fn next(&mut self) -> Option<&'a Block> {
        match self.rest {
            Chain::End => None,
            Chain::More(node) => {
                self.rest = &node.next;
                Some(&node.block)
            }
        }
    }
}

/// The bytes that are left to read, in order (profile). Each item is a piece of 512 bytes; the last may be shorter.
#[derive(Drop)]
pub struct Pieces<'a> {
    blocks: Blocks<'a>,
    left: usize,
}

impl<'a> Model for Pieces<'a> {
    ghost use Rattle.std.specs.Prelude.{List, ℕ};

    ghost Value = { List ℕ };

    ghost use Rattle.satl_base.specs.Blocks.{first_bytes};

    ghost view = { λ p. first_bytes p.left p.blocks };
}

impl<'a> Iterator for Pieces<'a> {
    type Item = &'a [u8];

    ghost use Rattle.std.specs.Iterator.{item_count};
    ghost use Rattle.satl_base.specs.Pieces.{GivesPiece};

    ghost next_gives = { GivesPiece };

    ghost remaining = { item_count (λ s. s) };

    fn next(&mut self) -> Option<&'a [u8]> {
        if self.left == 0 {
            return None;
        }
        let bytes = self.blocks.next()?.as_bytes();
        let count = self.left.min(512);
        self.left -= count;
        Some(&bytes[..count])
    }
}
