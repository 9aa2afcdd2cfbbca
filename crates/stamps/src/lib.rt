// The tags that each change of the blocks writes, one after the other, as the lists of writes say. Nothing is checked here:
// the plan was. A block of s grains stands at grain x; k grains become a used block, whose payload stands d half grains after
// its start; a is the free room before the block, and b the free room after it.

#![tactic(auto)]

ghost use Rattle.std.specs.Prelude.{◌≡◌, [], ◌∷◌, ◌+◌, ◌/◌, ◌≤◌, ◌<◌, length};
ghost use Rattle.script.specs.Memory.{◌at◌≔◌};
ghost use Rattle.machine.specs.Machine.{piece};
ghost use Rattle.tags.specs.Tag.{Tag};
ghost use Rattle.tags.specs.Writes.{lay_pad_tags, clear_pad_tags, lay_free_tags, split_tags, clear_after_tags, clear_before_tags, clear_room_tags, allocate_tags, deallocate_tags, stretch_tags, down_tags, piece_tags};
ghost use Rattle.stamps.specs.Stores.{tag_stores};
ghost use Rattle.lent.specs.Empty.{Zeros};
ghost use Rattle.stamps.specs.Initial.{Initial};
ghost use Rattle.stamps.specs.Bounds.{CanLayFree, CanSplit, CanAllocate, CanDeallocate, CanStretch, CanDown, CanLayPiece};

// ---- the changes

// Of a free block k grains become used.
pub fn allocate_tags(tags: &mut [u16], x: usize, s: usize, k: usize, d: usize)
    requires { CanAllocate tags.old x s k d }
    ensures { tags.new ≡ tag_stores tags.old (allocate_tags x s k d) }
{
    clear(tags, x + s - 1);
    lay_pad(tags, x, d);
    split(tags, x, s, k, d);
}

// A used block becomes free, and is joined with the free room beside it.
pub fn deallocate_tags(tags: &mut [u16], x: usize, s: usize, d: usize, a: usize, b: usize)
    requires { CanDeallocate tags.old x s d a b }
    ensures { tags.new ≡ tag_stores tags.old (deallocate_tags x s d a b) }
{
    clear_pad(tags, x, d);
    clear_after(tags, x + s, b);
    clear_before(tags, x, a);
    lay_free(tags, x - a, a + (s + b));
}

// A used block grows into the free room after it, or shrinks: it has k grains, and its payload stays where it is.
pub fn stretch_tags(tags: &mut [u16], x: usize, s: usize, d: usize, b: usize, k: usize)
    requires { CanStretch tags.old x s b k }
    ensures { tags.new ≡ tag_stores tags.old (stretch_tags x s d b k) }
{
    clear_room(tags, x + s, b);
    split(tags, x, s + b, k, d);
}

// A used block, with its payload at e, moves down into the free room before it.
pub fn down_tags(
    tags: &mut [u16],
    x: usize,
    s: usize,
    e: usize,
    a: usize,
    b: usize,
    k: usize,
    d: usize,
)
    requires { CanDown tags.old x s e a b k d }
    ensures { tags.new ≡ tag_stores tags.old (down_tags x s e a b k d) }
{
    clear_pad(tags, x, e);
    clear_after(tags, x + s, b);
    clear_before(tags, x, a);
    allocate_tags(tags, x - a, a + (s + b), k, d);
}

// k grains that were not given become a piece: a free block and its sentinel.
pub fn piece_tags(tags: &mut [u16], x: usize, k: usize)
    requires { CanLayPiece tags.old x k }
    ensures { tags.new ≡ tag_stores tags.old (piece_tags x k) }
{
    lay_free(tags, x, k - 1);
    lent::put_tag(tags, x + (k - 1), lent::start_tag(1));
}

// ---- parts

// k of s blank grains become a used block, and the rest, if any, a free one.
pub fn split(tags: &mut [u16], x: usize, s: usize, k: usize, d: usize)
    requires { CanSplit tags.old x s k }
    ensures { tags.new ≡ tag_stores tags.old (split_tags x s k d) }
{
    lent::put_tag(tags, x, lent::first_tag(k, d));
    if k == s {
        return;
    }
    lay_free(tags, x + k, s - k);
}

// A free block comes: its last tag, then its first, which may be at the same grain.
pub fn lay_free(tags: &mut [u16], x: usize, s: usize)
    requires { CanLayFree tags.old x s }
    ensures { tags.new ≡ tag_stores tags.old (lay_free_tags x s) }
{
    lent::put_tag(tags, x + s - 1, lent::end_tag(s));
    lent::put_tag(tags, x, lent::free_tag(s));
}

// The last grain of a padding of two grains or more: its tag comes.
pub fn lay_pad(tags: &mut [u16], x: usize, d: usize)
    requires { (x + d / 2 ≤ length tags.old) × (d / 2 < piece) }
    ensures { tags.new ≡ tag_stores tags.old (lay_pad_tags x d) }
{
    let p = d / 2;
    if p < 2 {
        return;
    }
    lent::put_tag(tags, x + p - 1, lent::pad_tag(p));
}

// It goes.
pub fn clear_pad(tags: &mut [u16], x: usize, d: usize)
    requires { x + d / 2 ≤ length tags.old }
    ensures { tags.new ≡ tag_stores tags.old (clear_pad_tags x d) }
{
    let p = d / 2;
    if p < 2 {
        return;
    }
    clear(tags, x + p - 1);
}

// A free block of b grains at y is joined with what stands before it.
fn clear_after(tags: &mut [u16], y: usize, b: usize)
    requires { y + b ≤ length tags.old }
    ensures { tags.new ≡ tag_stores tags.old (clear_after_tags y b) }
{
    if b == 0 {
        return;
    }
    clear(tags, y);
}

// A block at x is joined with a free block of a grains before it.
fn clear_before(tags: &mut [u16], x: usize, a: usize)
    requires { (a ≤ x) × (x < length tags.old) }
    ensures { tags.new ≡ tag_stores tags.old (clear_before_tags x a) }
{
    if a == 0 {
        return;
    }
    clear(tags, x);
    clear(tags, x - 1);
}

// A free block of b grains at y goes.
fn clear_room(tags: &mut [u16], y: usize, b: usize)
    requires { y + b ≤ length tags.old }
    ensures { tags.new ≡ tag_stores tags.old (clear_room_tags y b) }
{
    if b == 0 {
        return;
    }
    clear(tags, y);
    clear(tags, y + b - 1);
}

// Grain x has no tag.
fn clear(tags: &mut [u16], x: usize)
    requires { x < length tags.old }
    ensures { tags.new ≡ tag_stores tags.old ((Tag at x ≔ 0) ∷ []) }
{
    lent::put_tag(tags, x, 0);
}

// ---- the empty heap

// Makes the tables those of a heap to which nothing was given. The arena is left as it is.
pub fn init(lists: &mut [u64], tags: &mut [u16], regions: &mut [u64])
    requires { 1 ≤ length regions.old }
    ensures { Initial lists.old tags.old regions.old lists.new tags.new regions.new }
{
    table::fill(lists, 0);
    tags.fill(0);
    table::store(regions, 0, 0);
}
