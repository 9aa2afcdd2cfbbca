// The heap as one value: the arena and the tables that are lent to it, with the calls as methods. firmheap::init makes the tables.
// Each call promises what firmheap's promises, that the slice which it has no use for stays as it is, and that all four are the
// slices that were lent.

#![tactic(auto)]

ghost use Rattle.std.specs.Prelude.{◌≡◌};
ghost use Rattle.firmheap.specs.Replies.{taken, done};
ghost use Rattle.firmheap.specs.Contract.{Allocates, Deallocates, Reallocates, Inserts, Appends};

use refusal::Refusal;

// Whatever is in the slices, and however long they are.
#[derive(Drop)]
pub struct Heap<'a> {
    pub arena: &'a mut [u8],
    pub lists: &'a mut [u64],
    pub live: &'a mut [u64],
    pub regions: &'a mut [u64],
}

impl Heap<'_> {
    ghost use Rattle.heap.specs.Slices.{SameSlices};

    // A region is given: `len` bytes from the offset `start` on. The bytes used of them are answered.
    pub fn insert_free_block(&mut self, start: usize, len: usize) -> Result<usize, Refusal>
        ensures does { Inserts self.old.arena.now self.old.lists.now self.old.regions.now start len (taken result)
            self.new.arena.now self.new.lists.now self.new.regions.now }
        ensures live { self.new.live.now ≡ self.old.live.now }
        ensures same { SameSlices self.old self.new }
    {
        firmheap::insert_free_block(self.arena, self.lists, self.regions, start, len)
    }

    // The same of a region that begins where another ended.
    pub fn append_free_block(&mut self, start: usize, len: usize) -> Result<usize, Refusal>
        ensures does { Appends self.old.arena.now self.old.lists.now self.old.regions.now start len (taken result)
            self.new.arena.now self.new.lists.now self.new.regions.now }
        ensures live { self.new.live.now ≡ self.old.live.now }
        ensures same { SameSlices self.old self.new }
    {
        firmheap::append_free_block(self.arena, self.lists, self.regions, start, len)
    }

    // A payload of `size` bytes at a multiple of `align`: its offset.
    pub fn allocate(&mut self, size: usize, align: usize) -> Result<usize, Refusal>
        ensures does { Allocates self.old.arena.now self.old.lists.now self.old.live.now size align (taken result)
            self.new.arena.now self.new.lists.now self.new.live.now }
        ensures regions { self.new.regions.now ≡ self.old.regions.now }
        ensures same { SameSlices self.old self.new }
    {
        firmheap::allocate(self.arena, self.lists, self.live, size, align)
    }

    // The payload at the offset `payload` is returned.
    pub fn deallocate(&mut self, payload: usize, align: usize) -> Result<(), Refusal>
        ensures does { Deallocates self.old.arena.now self.old.lists.now self.old.live.now payload align (done result)
            self.new.arena.now self.new.lists.now self.new.live.now }
        ensures regions { self.new.regions.now ≡ self.old.regions.now }
        ensures same { SameSlices self.old self.new }
    {
        firmheap::deallocate(self.arena, self.lists, self.live, payload, align)
    }

    // It gets `size` bytes: its offset from now on.
    pub fn reallocate(
        &mut self,
        payload: usize,
        size: usize,
        align: usize,
    ) -> Result<usize, Refusal>
        ensures does { Reallocates self.old.arena.now self.old.lists.now self.old.live.now payload size align (taken result)
            self.new.arena.now self.new.lists.now self.new.live.now }
        ensures regions { self.new.regions.now ≡ self.old.regions.now }
        ensures same { SameSlices self.old self.new }
    {
        firmheap::reallocate(self.arena, self.lists, self.live, payload, size, align)
    }
}
