// A chain of boxed nodes: how pages are linked.
ghost use Rattle.std.specs.Prelude.{◌≡◌, ◌∷◌, ◌++◌, ◌+◌, ◌*◌, ◌≤◌, ◌<◌, [], MatchOption, length, reverse, slice_index_or, slice_set, drop};
ghost use Rattle.satl_base.specs.Blocks.{blocks_from};
ghost use Rattle.satl_base.specs.Chains.{blocks_of};

use crate::block::Block;
use std::mem;

/// One block after another, each in a box of its own.
#[cycle(chain)]
pub(crate) enum Chain {
    End,
    More(Box<Node>),
}

/// A block, and what follows it.
#[cycle(chain)]
#[derive(Drop)]
pub(crate) struct Node {
    pub(crate) block: Block,
    pub(crate) next: Chain,
}

impl Chain {
    /// The first node, with what follows it still behind it.
    pub(crate) fn into_node(self) -> Option<Box<Node>>
        ensures { MatchOption result (blocks_of self ≡ []) (λ n. blocks_of self ≡ n.value.block ∷ blocks_of n.value.next) }
    {
        match self {
            Chain::End => None,
            Chain::More(node) => Some(node),
        }
    }

    /// The block at a place. It walks there.
    pub(crate) fn block(&self, i: u32) -> &Block
        requires { i < length (blocks_of self.now) }
        ensures { result.now ≡ slice_index_or (blocks_of self.now) i result.now }
    {
        let mut rest = self;
        for _ in 0..i {
            rest = rest.next();
        }
        rest.first()
    }

    /// Writes the first block.
    pub(crate) fn set_first(&mut self, block: &Block)
        requires { 0 < length (blocks_of self.old) }
        ensures { blocks_of self.new ≡ slice_set (blocks_of self.old) 0 block.now }
    {
        match self {
            Chain::End => unreachable!(),
            Chain::More(node) => node.block = *block,
        }
    }

    fn first(&self) -> &Block
        requires { 0 < length (blocks_of self.now) }
        ensures { result.now ≡ slice_index_or (blocks_of self.now) 0 result.now }
    {
        match self {
            Chain::End => unreachable!(),
            Chain::More(node) => &node.block,
        }
    }

    fn next(&self) -> &Chain
        requires { 0 < length (blocks_of self.now) }
        ensures { blocks_of result.now ≡ drop 1 (blocks_of self.now) }
    {
        match self {
            Chain::End => unreachable!(),
            Chain::More(node) => &node.next,
        }
    }
}

/// Moves the first n nodes of one chain before the first of the other, one by one, so that their order turns round.
pub(crate) fn shift_many(from: &mut Chain, onto: &mut Chain, n: u32)
    requires { n ≤ length (blocks_of from.old) }
    ensures same { reverse (blocks_of onto.new) ++ blocks_of from.new ≡ reverse (blocks_of onto.old) ++ blocks_of from.old }
    ensures count { length (blocks_of onto.new) ≡ length (blocks_of onto.old) + n }
{
    // Both are walked as values, so that no link is written and read again behind a reference.
    let mut rest = mem::replace(from, Chain::End);
    let mut done = mem::replace(onto, Chain::End);
    for _ in 0..n {
        let Some(mut node) = rest.into_node() else {
            unreachable!();
        };
        rest = mem::replace(&mut node.next, done);
        done = Chain::More(node);
    }
    *from = rest;
    *onto = done;
}

/// Moves the first n nodes of one chain before the first of the other, one by one, so that their order turns round, and fills
/// each on the way with the next 512 of the bytes.
pub(crate) fn shift_filled(from: &mut Chain, onto: &mut Chain, bytes: &[u8], n: u32)
    requires enough { n ≤ length (blocks_of from.old) }
    requires long { 512 * n ≤ length bytes.now }
    ensures filled { blocks_of onto.new ≡ reverse (blocks_from n bytes.now) ++ blocks_of onto.old }
    ensures rest { blocks_of from.new ≡ drop n (blocks_of from.old) }
{
    let mut rest = mem::replace(from, Chain::End);
    let mut done = mem::replace(onto, Chain::End);
    // A block is copied as an array: as a slice, its copy would first test whether the two overlap.
    let (blocks, _) = bytes.as_chunks::<512>();
    for i in 0..n {
        let Some(mut node) = rest.into_node() else {
            unreachable!();
        };
        node.block.bytes = blocks[i as usize];
        rest = mem::replace(&mut node.next, done);
        done = Chain::More(node);
    }
    *from = rest;
    *onto = done;
}

// A loop, so that a long chain does not run out of stack.
impl Drop for Chain {
    fn drop(mut self) {
        loop {
            match self {
                Chain::End => return,
                Chain::More(node) => {
                    let Node { next, .. } = Box::into_inner(node);
                    self = next;
                }
            }
        }
    }
}
