// A resize in half grains: in place, down into the free block before, or elsewhere; each step is planned and checked before
// its first write. Only the return of the old block is checked after a write, the take's, which is undone where that return
// is refused: so a refusal changes nothing.

#![tactic(auto)]

ghost use Rattle.std.specs.Prelude.{◌+◌, ◌*◌, ◌^◌, ◌≤◌, ◌<◌, length as length_of};
ghost use Rattle.slices.specs.Decode.{grains};
ghost use Rattle.free_list.specs.Lent.{Long};
ghost use Rattle.tables.specs.Length.{LongEnough};
ghost use Rattle.allocate.specs.Demand.{Demand};
ghost use Rattle.undo.specs.Saved.{Inside};
ghost use Rattle.neighbours.specs.Within.{Behind};
ghost use Rattle.reallocate.specs.Does.{resized, GoesElsewhere, Moves, Resizes};
ghost use Rattle.reallocate.specs.Left.{Leaves};
ghost use Rattle.reallocate.specs.Slid.{Ready, Slid};

use neighbours::Neighbour;
use refusal::Refusal;
use stretch::Plan;
use undo::Saved;

// The payload at q, counted in half grains, is to have others at a multiple: where it is afterwards.
pub fn resize(
    a: &mut [u8],
    lists: &mut [u64],
    live: &mut [u64],
    q: usize,
    length: usize,
    multiple: usize,
) -> Result<usize, Refusal>
    requires { Demand length multiple × (length < 2 ^ 63) × LongEnough (length_of a.old) (length_of lists.old) (length_of live.old) × (q < 2 * grains 8 a.old) }
    ensures { Resizes a.old lists.old live.old q length multiple (resized result)
        a.new lists.new live.new }
{
    let o = neighbours::see_owner(a, live, q)?;
    let keep = request::keeps_of(q - 2 * o.at, length);
    match stretch::plan_stretch(a, lists, o.at, o.grains, keep)? {
        Plan::Same => Ok(q),
        Plan::Fitted(p) => {
            stretch::apply_stretch(a, lists, o.at, o.grains, keep, p);
            Ok(q)
        }
        Plan::Short(behind) => {
            move_payload(a, lists, live, q, o.at, o.grains, behind, length, multiple)
        }
    }
}

// ---- down, or elsewhere

// The payload at q, in the used block of s grains at x, behind which a neighbour was seen or nobody, has to move.
fn move_payload(
    a: &mut [u8],
    lists: &mut [u64],
    live: &mut [u64],
    q: usize,
    x: usize,
    s: usize,
    behind: Option<Neighbour>,
    length: usize,
    multiple: usize,
) -> Result<usize, Refusal>
    requires { Demand length multiple × LongEnough (length_of a.old) (length_of lists.old) (length_of live.old) × Behind a.old x s behind × (q < 2 * grains 8 a.old) × (q ≤ 2 * (x + s)) × (2 * (x + s) ≤ q + length) }
    ensures { Moves a.old lists.old live.old q x s behind length multiple (resized result)
        a.new lists.new live.new }
{
    let planned = slide::plan_slide(a, lists, x, s, behind, length, multiple)?;
    let u = 2 * (x + s) - q;
    let Some(p) = planned else {
        return go_elsewhere(a, lists, live, q, u, length, multiple);
    };
    let to = 2 * p.at + p.place;
    slide_down(a, lists, live, q, u, p);
    Ok(to)
}

// What was planned for the payload at q, of which u half grains are carried: after the neighbours left their lists, and
// before the block is made.
fn slide_down(a: &mut [u8], lists: &mut [u64], live: &mut [u64], q: usize, u: usize, p: slide::Plan)
    requires { Ready a.old lists.old live.old q u p }
    ensures { Slid a.old lists.old live.old q u p
        a.new lists.new live.new }
{
    slide::apply_leaving(a, lists, p);
    copy::move_halves(a, q, 2 * p.at + p.place, u);
    slide::apply_down(a, lists, live, q, p);
}

// ---- elsewhere

// Another block is taken for the payload at q, of which u half grains are carried there, and the old one is returned.
fn go_elsewhere(
    a: &mut [u8],
    lists: &mut [u64],
    live: &mut [u64],
    q: usize,
    u: usize,
    length: usize,
    multiple: usize,
) -> Result<usize, Refusal>
    requires { Demand length multiple × LongEnough (length_of a.old) (length_of lists.old) (length_of live.old) × (q < 2 * grains 8 a.old) × (q + u ≤ 2 * grains 8 a.old) × (u ≤ length) }
    ensures { GoesElsewhere a.old lists.old live.old q u length multiple (resized result)
        a.new lists.new live.new }
{
    let p = allocate::plan_take(a, lists, length, multiple)?;
    let saved = undo::save_take(a, lists, live, p);
    occupy::apply_take(a, lists, live, p);
    let to = 2 * p.at + p.place;
    leave_old(a, lists, live, q, to, u, saved)?;
    Ok(to)
}

// The payload at q leaves its block for the half grain `to`, where another was taken: u half grains are carried, and the
// block is returned. Where that is refused the take is undone, with what was saved before it.
fn leave_old(
    a: &mut [u8],
    lists: &mut [u64],
    live: &mut [u64],
    q: usize,
    to: usize,
    u: usize,
    s: Saved,
) -> Result<(), Refusal>
    requires { Inside a.old lists.old live.old s × Long lists.old × (q < 64 * length_of live.old) × (q < 2 * grains 8 a.old) × (q + u ≤ 2 * grains 8 a.old) × (to + u ≤ 2 * grains 8 a.old) }
    ensures { Leaves a.old lists.old live.old q to u s result
        a.new lists.new live.new }
{
    match deallocate::plan_back(a, lists, live, q) {
        Ok(back) => {
            copy::move_halves(a, q, to, u);
            deallocate::apply_later(a, lists, live, q, back);
            Ok(())
        }
        Err(refusal) => {
            undo::undo_take(a, lists, live, s);
            Err(refusal)
        }
    }
}
