//! A law over the definitions that the calls cite. Its function does nothing; its clause is what is proved.
ghost use Rattle.mediator_state.specs.CutOrder.{CutsBeforeAscend};

/// The cuts directly before a message, or before an advance of the clock, ascend by the numbers of their subscriptions.
/// So a history has one order for them.
pub fn cuts_ascend()
    ensures { CutsBeforeAscend }
{}
