//! The scheme as a machine, step by step.
ghost use Rattle.std.specs.Prelude.{◌≡◌, true, IfOk};
ghost use Rattle.seize.specs.Machine.State.{head_at, is_active};

use seize::Refusal;
use seize::machine::{Event, Machine};
use std::alloc::Global;

/// A machine whose slot 0 was taken and has entered: it is active.
pub fn with_active_slot(alloc: Global) -> Result<Machine, Refusal>
    ensures { IfOk result (λ machine. is_active (head_at machine.state 0) ≡ true) }
{
    let mut machine = Machine::new(alloc, 1, 0)?;
    machine.step(Event::Take(0))?;
    machine.step(Event::Enter(0))?;
    Ok(machine)
}
