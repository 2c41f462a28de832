// The moves of one instant, forward or back, before clocks are reset and after.
ghost use Rattle.std.specs.Prelude.{List, ℕ, ◌^◌, ◌<◌, cond};
ghost use Rattle.words.specs.Words.{Is, Joined};
ghost use Rattle.situation.specs.Ruled.{ruled_from};
ghost use Rattle.firings.specs.Rested.{ranged};
ghost use Rattle.images.specs.Moved.{rests_by, moved};

use firings::{Plan, fire};
use monitor::{airtime_of, to_unit};
use ranges::or_range;
use words::clear;

// So many numbers go over from s on to d on, or back.
#[tactic(auto, unfolding(firings::specs::Rested::ranged))]
fn range(p: Plan, d: usize, s: usize, length: usize, src: &[u64], dst: &mut [u64])
    requires { (d < 2 ^ 60) × (s < 2 ^ 60) × (length < 2 ^ 60) }
    ensures { Joined (cond p.back (ranged src.now s d length) (ranged src.now d s length)) dst.old dst.new }
{
    if p.back {
        or_range(dst, s, src, d, src, d, length);
    } else {
        or_range(dst, d, src, s, src, s, length);
    }
}

// What resting leaves.
fn rest(p: Plan, table: &[u8], size: usize, src: &[u64], dst: &mut [u64])
    requires { size < 2 ^ 60 }
    ensures { (offsets : List ℕ) → Joined (rests_by p (ruled_from p.shape table.now offsets) size src.now) dst.old dst.new }
{
    let free = p.free as usize;
    match p.heard {
        None => {
            range(p, 0, free, size.saturating_sub(free), src, dst);
            range(p, 0, 0, free, src, dst);
        }
        Some(kind) if to_unit(table, kind) => {
            let air = airtime_of(table, kind) as usize;
            range(p, free * air, 0, free, src, dst);
        }
        Some(_) => {}
    }
}

// What resting leaves, and what the transitions give. Forward, out has a set for each choice of clocks that are reset; back, src has.
pub(crate) fn moves(
    p: Plan,
    table: &[u8],
    offsets: &[u16],
    size: usize,
    planes: &[u64],
    src: &[u64],
    out: &mut [u64],
)
    requires { size < 2 ^ 60 }
    ensures { Is (moved p table.now offsets.now size planes.now src.now) out.old out.new }
{
    clear(out);
    rest(p, table, size, src, out);
    fire(p, table, offsets, planes, src, out);
}
