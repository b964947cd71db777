//! Laws of the state.
ghost use Rattle.rio_machine.specs.State.{OrdersAreTotal};

/// The orders of the objects and of the trees are total, and only equal names and cycles tie: two states that have the
/// same classes, and the same at each name and cycle, are equal.
pub fn orders_are_total()
    ensures { OrdersAreTotal }
{}
