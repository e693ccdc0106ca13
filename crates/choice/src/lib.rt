//! What choose answers for a wiring under a kind of delay, and what follows from it. The definitions
//! stand in specs/; the function here has what is proved of them for its contract.
#![tactic(auto)]

ghost use Rattle.choice.specs.Claims.{ChoicesStand};
ghost use Rattle.choice.specs.Orders.{OrdersStand, RoomStands, RowsChosen};

use delay::Delay;

/// Of choices, for every kind of delay: every wiring and whatever is lent has an outcome; only the
/// witness is free in it; an accepted list covers every lead by as few paths as can be; sheets with
/// equal signs and leads never get different lists, whatever calls made them; and rules are judged
/// in order.
pub fn choices_stand<D: Delay>()
    ensures choices { ChoicesStand D.Delay.kind }
    ensures orders { OrdersStand }
    ensures room { RoomStands }
    ensures rows { RowsChosen D.Delay.kind }
{}
