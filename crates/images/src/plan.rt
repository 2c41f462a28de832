// The plan of an instant's firings.
ghost use Rattle.std.specs.Prelude.{◌≤◌};
ghost use Rattle.images.specs.Planning.{PlanOf};

use firings::Plan;
use situation::Shape;

// The numbers are those of a table whose situations fit sets of n words.
pub(crate) fn plan_of(h: Shape, heard: Option<u8>, live: u64, n: usize, back: bool) -> Plan
    requires { n ≤ 1024 }
    ensures { PlanOf h heard live n back result }
{
    let plane = h.first as usize * h.second as usize;
    let state = plane * h.masks as usize;
    let free = state * (h.states as usize * h.windows as usize);
    let apart = 64 * ((state + 63) / 64);
    Plan {
        shape: h,
        heard,
        live,
        plane: plane as u32,
        free: (free % 4294967296) as u32,
        gap: 64 * n as u32,
        apart: (apart % 4294967296) as u32,
        back,
    }
}
