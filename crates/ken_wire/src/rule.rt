// The rule of a wire's queue, and what each step tells.
ghost use Rattle.std.specs.Prelude.{◌≡◌, ◌+◌, [], ◌∷◌, ◌++◌, ⊤};
ghost use Rattle.ken_wire.specs.Views.{after_put, sending, taking, spent, nothing};
ghost use Rattle.ken_wire.specs.Rule.{WireRule, Tells};

use crate::view::View;
use crossbeam_queue::RuledArrayQueue;
use crossbeam_queue::protocol::{Join, Lesson, Outcome, Protocol, Split};
use ken_model::Octets;
use ken_net::Handed;
use std::alloc::Global;
use std::marker::PhantomData;

pub(crate) type Queue = RuledArrayQueue<Octets, View, Carries, Global>;

/// What a wire holds is what its nodes put, and what its taker didn't hear yet.
pub struct Carries;

impl Protocol<Octets, View> for Carries {
    ghost holds = { WireRule };

    ghost first = { taking 0 [] [] };
}

// A packet is put, and this is handed in with it.
pub(crate) struct Puts<H> {
    marker: PhantomData<H>,
}

impl<H: Handed> Outcome<Octets, View> for Puts<H> {
    ghost then = { λ v bytes w. w ≡ sending v.from (after_put H.sealed H.consumed bytes v.sent) };
}

impl<H: Handed> Lesson<Octets, View> for Puts<H> {
    ghost fact = { λ v queued. ⊤ };
}

// A packet is taken.
pub(crate) struct Takes;

impl Outcome<Octets, View> for Takes {
    ghost then = { λ v bytes w. w ≡ taking v.made (v.heard ++ bytes ∷ []) v.joined };
}

impl Lesson<Octets, View> for Takes {
    ghost fact = { λ v queued. ⊤ };
}

// The next node gets its end.
pub(crate) struct Seats;

impl Split<View> for Seats {
    ghost left = { λ v. taking (v.made + 1) v.heard v.joined };

    ghost right = { λ v. sending v.made nothing };
}

// The next node's end comes back.
pub(crate) struct Joins;

impl Join<View> for Joins {
    ghost both = { λ v w. taking v.made v.heard (v.joined ++ w.sent ∷ []) };

    ghost spent = { spent };
}

// What all know together.
pub(crate) struct Total;

impl Lesson<Octets, View> for Total {
    ghost fact = { λ v queued. Tells v.made v.joined v.heard queued };
}
