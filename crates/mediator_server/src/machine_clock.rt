//! The machine's clock, as the one by which messages to collectors are stamped.
ghost use Rattle.std.specs.Prelude.{⊤};

use mediator_connections::Clock;
use std::time;

/// Tells Export Times by the machine's clock; 0 where it can't be read.
#[derive(Clone, Copy, Debug, Drop)]
pub(crate) struct MachineClock<'a, R: time::Clock> {
    machine: &'a R,
}

impl<'a, R: time::Clock> MachineClock<'a, R> {
    /// The clock of `machine`.
    pub(crate) fn of(machine: &'a R) -> MachineClock<'a, R> {
        MachineClock { machine }
    }
}

impl<R: time::Clock> Clock for MachineClock<'_, R> {
    ghost shows = { λ _ _. ⊤ };

    fn now(&self) -> u32 {
        match self.machine.since_1970() {
            Ok(time) => (time.as_secs() % 0x1_0000_0000) as u32,
            Err(_) => 0,
        }
    }
}
