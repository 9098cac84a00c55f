// Blocks of which memory is touched only as they are first set.
ghost use Rattle.std.specs.Prelude.{◌≡◌, ◌≤◌, ◌<◌, ◌-◌, ◌++◌, ◌∷◌, [], IfOk, length, replicate, slice_set, vec_len, vec_capacity};
ghost use Rattle.satl_base.specs.Blocks.{zero_block};
ghost use Rattle.satl_disk.specs.Layout.{block_at};

use satl_base::{Block, NoMemory};
use std::alloc::Global;
use std::marker::Model;

/// A fixed number of blocks of 512 bytes, zeros at first (profile). Clauses see all of them. Their memory is taken when they
/// are made, and touched up to the highest block that has been set.
#[derive(Drop)]
pub struct Blocks {
    // Made with room for all blocks, so that it never grows. Blocks behind its end are zeros.
    kept: Vec<Block>,
    number: usize,
    // What a block reads as until it is set.
    zeros: Block,
}

impl Model for Blocks {
    ghost use Rattle.std.specs.Prelude.{List, ◌≡◌, ◌≤◌, vec_capacity};
    ghost use Rattle.satl_base.specs.Blocks.{zero_block};
    ghost use Rattle.satl_base.specs.declared.block.Block.{Block};
    ghost use Rattle.satl_disk.specs.Layout.{front_blocks};

    ghost Value = { List Block };

    ghost view = { λ b. front_blocks b.number b.kept.items };

    ghost invariant = { λ b. (b.number ≤ vec_capacity b.kept) × (b.zeros ≡ zero_block) };
}

impl Blocks {
    /// So many blocks of zeros. The error is want of memory (profile).
    pub fn zeros(alloc: Global, number: usize) -> Result<Blocks, NoMemory>
        ensures { IfOk result (λ blocks. blocks ≡ replicate number zero_block) }
    {
        Ok(Blocks {
            kept: Vec::with_capacity(alloc, number)?,
            number,
            zeros: Block::zero(),
        })
    }

    /// The block at a place.
    pub fn at(&self, place: usize) -> &Block
        requires { place < length self.now }
        ensures { result.now ≡ block_at self.now place }
    {
        if place < self.kept.len() {
            &self.kept[place]
        } else {
            &self.zeros
        }
    }

    /// Sets the block at a place.
    pub fn set(&mut self, place: usize, block: &Block)
        requires { place < length self.old }
        ensures { self.new ≡ slice_set self.old place block.now }
    {
        if place < self.kept.len() {
            self.kept[place] = *block;
        } else {
            push_at(&mut self.kept, place, block);
        }
    }
}

/// Pushes a block at a place behind the end, which has the room, and zeros up to there. Apart from `set`, which is short
/// without it.
#[inline(never)]
fn push_at(kept: &mut Vec<Block>, place: usize, block: &Block)
    requires behind { vec_len kept.old ≤ place }
    requires room { place < vec_capacity kept.old }
    ensures items { kept.new.items ≡ (kept.old.items ++ replicate (place - vec_len kept.old) zero_block) ++ block.now ∷ [] }
    ensures capacity { vec_capacity kept.old ≤ vec_capacity kept.new }
{
    push_zeros(kept, place);
    let Ok(()) = kept.push(*block) else {
        unreachable!();
    };
}

/// Pushes zeros up to a number of blocks, for which there is the room.
fn push_zeros(kept: &mut Vec<Block>, number: usize)
    requires fewer { vec_len kept.old ≤ number }
    requires room { number ≤ vec_capacity kept.old }
    ensures items { kept.new.items ≡ kept.old.items ++ replicate (number - vec_len kept.old) zero_block }
    ensures size { vec_len kept.new ≡ number }
    ensures capacity { vec_capacity kept.old ≤ vec_capacity kept.new }
{
    for _ in kept.len()..number {
        let Ok(()) = kept.push(Block::zero()) else {
            unreachable!();
        };
    }
}
