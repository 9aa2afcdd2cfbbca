// A planned take, carried out: the writes of its plan, in their order. Nothing else changes.

#![tactic(auto)]

ghost use Rattle.free_list.specs.Written.{WrittenLive};
ghost use Rattle.occupy.specs.Taken.{Ready, taken_writes};

use allocate::Plan;
use header::NONE;

// The first block of a list leaves it, keeps what the payload at its place needs, and the payload is live; what is left
// goes to the head of its list.
#[tactic(auto, using(header::specs::Turned::grains_few))]
pub fn apply_take(a: &mut [u8], lists: &mut [u64], live: &mut [u64], p: Plan)
    requires { Ready a.old lists.old live.old p }
    ensures { WrittenLive a.old lists.old live.old
        (taken_writes a.old p)
        a.new lists.new live.new }
{
    free_list::unlink_at(a, lists, p.list, p.next, NONE, p.at);
    carve::put_left(a, lists, p.at, p.grains, p.keep, p.rest_list, p.head);
    carve::put_pad(a, p.at, p.place);
    bits::set_table_bit(live, 2 * p.at + p.place);
}
