// The handler of each kind.
ghost use Rattle.std.specs.Prelude.{◌≡◌};
ghost use Rattle.ken_model.specs.Kinds.{handler_of};

use crate::{bank, kv, mix, ring, share, tally};
use ken_app::{App, Oracle, Turn};
use ken_model::Kind;
use std::alloc::AllocError;

/// The handler of a kind.
#[derive(Clone, Copy, Debug)]
pub struct KindApp(pub Kind);

impl App for KindApp {
    ghost handler = { λ app. handler_of app.0 };

    fn on_message<O: Oracle>(&self, turn: &mut Turn<'_, O>) -> Result<(), AllocError> {
        match self.0 {
            Kind::Ring => ring::on_message(turn),
            Kind::Tally => tally::on_message(turn),
            Kind::Share => share::on_message(turn),
            Kind::Mix => mix::on_message(turn),
            Kind::Kv => kv::on_message(turn),
            Kind::Bank => bank::on_message(turn),
        }
    }
}
