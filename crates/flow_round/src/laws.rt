//! The law of waves. It is the contract of a function that does nothing.

ghost use Rattle.flow_round.specs.Laws.{WavesAreAPass};

/// Pairs that are solved in waves have the same ends, and lead to the same partition, as in the order
/// of a pass.
pub fn waves_are_a_pass()
    ensures { WavesAreAPass }
{}
