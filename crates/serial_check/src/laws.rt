//! Laws of the definitions. Each function does nothing, and its contract is the law.
ghost use Rattle.serial_check.specs.Laws.{SerialIsPlaced, FreshIsPlaced};

/// There is no place where a report fails to be a serial run exactly where the clause `Serial`
/// holds.
pub fn serial_is_placed()
    ensures { SerialIsPlaced }
{}

/// There is no place where a value comes again exactly where the clause `Fresh` holds.
pub fn fresh_is_placed()
    ensures { FreshIsPlaced }
{}
