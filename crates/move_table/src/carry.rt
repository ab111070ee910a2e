//! How a pass carries a vertex over its nets.

ghost use Rattle.std.specs.Prelude.{◌≡◌, ◌<◌, length, pos, FitsSigned};
ghost use Rattle.std.specs.Int.{w64};
ghost use Rattle.hg_defs.specs.Hypergraph.{net_count};
ghost use Rattle.hg_defs.specs.Incidence.{nets_of};
ghost use Rattle.move_core.specs.declared.account.Owed.TheVariants.{Nothing};
ghost use Rattle.move_core.specs.declared.account.Stage.TheVariants.{Moving};
ghost use Rattle.std.specs.Prelude.{true};
ghost use Rattle.move_table.specs.Standing.{terms_setup};
ghost use Rattle.move_table.specs.Calls.{IsGrantOf, IsAtNet, IsMover, IsRaised, IsLowered, ArePassed};

use crate::grant::Grant;
use crate::round::Round;
use crate::steps::{Place, add, subtract};
use hg_base::{field, unit};
use move_core::{Event, narrow_gain, widen_gain};

/// Counts the vertex in the new block on a net, and books a block more where it is the first pin
/// there.
fn raise(round: &Round, seat: &mut Place, pass: u32, grant: &Grant, e: u32) -> i64
    requires table { seat.old.table_id ≡ round.now.table }
    requires mover { IsMover round.now.terms pass seat.old.me.0 }
    requires grant { IsGrantOf round.now.terms grant.now }
    requires net { e < net_count round.now.terms.part.hyper }
    requires stage { IsAtNet round.now.terms seat.old.me.0 grant.now e 0 }
    ensures table { (seat.new.table_id ≡ seat.old.table_id) × (seat.new.me.1 ≡ seat.old.me.1) }
    ensures raised { IsRaised (terms_setup round.now.terms) pass e seat.old.me.0 seat.new.me.0 result }
{
    let place = round.count_place(e, grant.to);
    let found = add(
        round.shared(),
        seat,
        Event::Raise { pass },
        place.word,
        unit(place.bits, place.field),
    );
    if field(found, place.bits, place.field) != 0 {
        return 0;
    }
    let spread = add(
        round.shared(),
        seat,
        Event::Widen { pass },
        round.net(e).start as usize,
        1,
    );
    widen_gain(round.hyper().flat(), e, spread)
}

/// Counts the vertex no longer in the old block on a net, and books a block less where it was the
/// last pin there.
fn lower(round: &Round, seat: &mut Place, pass: u32, grant: &Grant, e: u32) -> i64
    requires table { seat.old.table_id ≡ round.now.table }
    requires mover { IsMover round.now.terms pass seat.old.me.0 }
    requires grant { IsGrantOf round.now.terms grant.now }
    requires net { e < net_count round.now.terms.part.hyper }
    requires stage { IsAtNet round.now.terms seat.old.me.0 grant.now e 1 }
    ensures table { (seat.new.table_id ≡ seat.old.table_id) × (seat.new.me.1 ≡ seat.old.me.1) }
    ensures lowered { IsLowered (terms_setup round.now.terms) pass e seat.old.me.0 seat.new.me.0 result }
{
    let place = round.count_place(e, grant.from);
    let found = subtract(
        round.shared(),
        seat,
        Event::Lower { pass },
        place.word,
        unit(place.bits, place.field),
    );
    if field(found, place.bits, place.field) != 1 {
        return 0;
    }
    let spread = subtract(
        round.shared(),
        seat,
        Event::Narrow { pass },
        round.net(e).start as usize,
        1,
    );
    narrow_gain(round.hyper().flat(), e, spread)
}

/// Carries the pins of the vertex from its old block to its new one, net by net in rising number,
/// and answers what was booked.
pub(crate) fn carry_pins(
    round: &Round,
    seat: &mut Place,
    pass: u32,
    grant: &Grant,
    number: u64,
) -> i64
    requires table { seat.old.table_id ≡ round.now.table }
    requires mover { IsMover round.now.terms pass seat.old.me.0 }
    requires grant { IsGrantOf round.now.terms grant.now }
    requires stage { seat.old.me.0.account.stage ≡ Moving grant.now.vertex grant.now.from grant.now.to number true 0 0
        Nothing (pos 0) }
    requires fits { FitsSigned w64 seat.old.me.0.account.gain }
    ensures table { (seat.new.table_id ≡ seat.old.table_id) × (seat.new.me.1 ≡ seat.old.me.1) }
    ensures passed { ArePassed (terms_setup round.now.terms) pass grant.now number
        (length (nets_of round.now.terms.part.hyper grant.now.vertex)) seat.old.me.0 seat.new.me.0 result }
{
    let mut booked = 0i64;
    for e in round.hyper().nets_of(grant.vertex) {
        booked += raise(round, seat, pass, grant, *e);
        booked += lower(round, seat, pass, grant, *e);
    }
    booked
}
