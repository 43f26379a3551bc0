//! Which numbers of which clients are pending.
ghost use Rattle.std.specs.Prelude.{◌≡◌, ℕ, ◌/◌, ◌%◌, ◌==◌, ◌&&◌, not, true, false, if◌then◌else◌, IfOk};
ghost use Rattle.repair_queue.specs.{mark_at, mark_of, marked, marked_in, same_pair};

use crate::block::{BLOCK, Block};
use ram_io::NoMemory;
use std::alloc::Global;
use std::collections::HashMap;

// The number n of a client is the place n % 64 of its block n / 64.
type Blocks = HashMap<(u64, u64), Block>;

// So many numbers share a block.
const NUMBERS: u64 = BLOCK as u64;

/// A mark for each pair of a client and a number that is pending. The numbers of a NACK mostly share a
/// block, so the last one is had at hand: it stands apart and takes no look-up.
#[derive(Drop)]
pub(crate) struct Marks {
    /// Each has at least one mark.
    others: Blocks,
    /// The client of the block at hand, and which of its blocks it is.
    key: (u64, u64),
    /// The block at hand, in place of what `others` has under its key.
    block: Block,
}

impl Marks {
    /// No marks, with room for so many blocks.
    pub(crate) fn new(alloc: Global, room: usize) -> Result<Marks, NoMemory>
        ensures { IfOk result (λ marks. (client n : ℕ) → marked marks client n ≡ false) }
    {
        Ok(Marks {
            others: HashMap::with_capacity(alloc, room)?,
            key: (0, 0),
            block: Block::new(),
        })
    }

    /// No marks.
    pub(crate) fn clear(&mut self)
        ensures { (client n : ℕ) → marked self.new client n ≡ false }
    {
        self.others.clear();
        self.block = Block::new();
    }

    /// Whether a pair is marked.
    pub(crate) fn has(&self, client: u64, n: u64) -> bool
        ensures { result ≡ marked self.now client n }
    {
        self.block_at((client, n / NUMBERS))
            .has((n % NUMBERS) as usize)
    }

    /// Marks a pair. Whether it wasn't.
    pub(crate) fn put(&mut self, client: u64, n: u64) -> Result<bool, NoMemory>
        ensures was { IfOk result (λ is_new. is_new ≡ not (marked self.old client n)) }
        ensures marks { IfOk result (λ _. (k m : ℕ) → marked self.new k m ≡ (if client == k && n == m then true else marked self.old k m)) }
    {
        self.have_at_hand((client, n / NUMBERS))?;
        Ok(self.block.mark((n % NUMBERS) as usize))
    }

    /// A pair is no longer marked.
    pub(crate) fn take(&mut self, client: u64, n: u64) -> Result<(), NoMemory>
        ensures { IfOk result (λ _. (k m : ℕ) → marked self.new k m ≡ (not (client == k && n == m) && marked self.old k m)) }
    {
        self.have_at_hand((client, n / NUMBERS))?;
        self.block.unmark((n % NUMBERS) as usize);
        Ok(())
    }

    // Has the block of this key at hand. Mostly it is there, and then this is to cost no call.
    #[inline(always)]
    fn have_at_hand(&mut self, key: (u64, u64)) -> Result<(), NoMemory>
        ensures at_hand { IfOk result (λ _. self.new.key ≡ key) }
        ensures same { IfOk result (λ _. (k m : ℕ) → marked self.new k m ≡ marked self.old k m) }
    {
        if self.key != key {
            self.turn_to(key)?;
        }
        Ok(())
    }

    // Has the block of this key at hand, in place of another.
    fn turn_to(&mut self, key: (u64, u64)) -> Result<(), NoMemory>
        ensures at_hand { IfOk result (λ _. self.new.key ≡ key) }
        ensures same { IfOk result (λ _. (k m : ℕ) → marked self.new k m ≡ marked self.old k m) }
    {
        let block = self.block_at(key);
        store(&mut self.others, self.key, self.block)?;
        self.key = key;
        self.block = block;
        Ok(())
    }

    // The block of this key.
    fn block_at(&self, key: (u64, u64)) -> Block
        ensures { (place : ℕ) → mark_of result place ≡ mark_at self.now key place }
    {
        if self.key == key {
            return self.block;
        }
        match self.others.get(&key) {
            Some(block) => *block,
            None => Block::new(),
        }
    }
}

// The map has this block under its key, where the block has a mark; else it has none there.
fn store(blocks: &mut Blocks, key: (u64, u64), block: Block) -> Result<(), NoMemory>
    ensures { IfOk result (λ _. (k m : ℕ) → marked_in blocks.new k m ≡ (if same_pair key (k, m / 64) then mark_of block (m % 64) else marked_in blocks.old k m)) }
{
    if block.is_empty() {
        let _ = blocks.remove(&key);
    } else {
        blocks.insert(key, block)?;
    }
    Ok(())
}
