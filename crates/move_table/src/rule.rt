//! The rule of the table: the books are in balance between any two steps.

use crate::view::{Terms, View};
use atomic_table::TableRule;

/// The rule of a round.
pub struct Balanced;

impl TableRule<(), View, Terms> for Balanced {
    ghost use Rattle.move_table.specs.Standing.{AllStanding, first_view};

    ghost holds = { AllStanding };

    ghost first = { first_view };
}
