// What is lent: the numbers 30 and 31.

#![tactic(auto)]

ghost use Rattle.std.specs.Prelude.{◌≡◌, leb};
ghost use Rattle.model.specs.First.{unless};
ghost use Rattle.model.specs.declared.Refusal.TheVariants.{Scratch};
ghost use Rattle.lent.specs.Lent.{room_lent, lent_answer};

use editions::latest_time;
use model::{Edition, Refusal};

// A lent buffer: how many bytes of it are wanted, and how many it has.
#[derive(Clone, Copy, Debug, PartialEq, Eq)]
pub struct Loan {
    pub wanted: usize,
    pub length: usize,
}

fn scratch_answer(scratch: Loan) -> Result<(), Refusal>
    ensures { result ≡ unless (leb scratch.wanted scratch.length) (Scratch scratch.wanted) }
{
    if scratch.length < scratch.wanted {
        return Err(Refusal::Scratch {
            wanted: scratch.wanted as u64,
        });
    }
    Ok(())
}

// An edition whose times end before the handover does is not written, however large the room.
fn room_answer(edition: Edition, last: usize, room: Loan) -> Result<(), Refusal>
    ensures { result ≡ room_lent edition last room.wanted room.length }
{
    if (latest_time(edition) as usize) < last {
        return Err(Refusal::WitnessRoom { wanted: 0 });
    }
    if room.length < room.wanted {
        return Err(Refusal::WitnessRoom {
            wanted: room.wanted as u64,
        });
    }
    Ok(())
}

// 30, then 31.
#[tactic(auto, unfolding(crate::specs::Lent::lent_answer))]
pub fn lent_answer(edition: Edition, last: usize, scratch: Loan, room: Loan) -> Result<(), Refusal>
    ensures { result ≡ lent_answer edition last scratch.wanted room.wanted scratch.length room.length }
{
    scratch_answer(scratch)?;
    room_answer(edition, last, room)
}
