//! What a step does to the view of its pass, and what it tells.

use crate::view::View;
use atomic_table::{Join, Play, Split};
use std::marker::{Brand, PhantomData};

/// A step: what it makes of a view where it finds a number, and what it tells of that number.
pub trait Deed {
    ghost use Rattle.std.specs.Prelude.{ℕ};
    ghost use Rattle.move_table.specs.declared.view.View.{View};

    ghost after: { ℕ → View → View };

    ghost told: { View → ℕ → Type 0 };
}

impl Deed for Brand {
    ghost after = { λ found v. v };

    ghost told = { λ v found. Unit {0} };
}

/// The play of a deed.
pub struct Does<D> {
    deed: PhantomData<D>,
}

impl<D: Deed> Play<(), View> for Does<D> {
    ghost use Rattle.std.specs.Prelude.{◌≡◌};

    ghost then = { λ _ me found after. (after ≡ (D.after found me.0, me.1)) × D.told me.0 found };
}

/// A pass makes another one.
pub struct Makes;

impl Split<View> for Makes {
    ghost use Rattle.move_table.specs.Steps.{parted_view, made_view};

    ghost left = { parted_view };

    ghost right = { made_view };
}

/// A pass takes another one over.
pub struct TakesOver;

impl Join<View> for TakesOver {
    ghost use Rattle.move_table.specs.Steps.{united_view};
    ghost use Rattle.move_table.specs.Standing.{spent_view};

    ghost both = { united_view };

    ghost spent = { spent_view };
}
