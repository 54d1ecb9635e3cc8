// A turn is sealed.
ghost use Rattle.std.specs.Prelude.{◌≡◌, ◌+◌, ◌<◌, ◌^◌, ◌++◌, [], ◌∷◌, map, Some, length, vec_len, vec_capacity, OnOk};
ghost use Rattle.std.specs.List.{All, AllByRecursion};
ghost use Rattle.std.specs.VecDeque.{deque_len, deque_capacity};
ghost use Rattle.ken_model.specs.Reading.{read_value};
ghost use Rattle.ken_cover.specs.Overlay.{overlay};
ghost use Rattle.ken_core.specs.Pages.{AreFit};
ghost use Rattle.ken_core.specs.Ledgers.{counted_from};
ghost use Rattle.ken_core.specs.Machines.{turn_pages, image_pages, KeepsWidths};

use crate::machine::Machine;
use crate::marks::mark_changes;
use crate::pages::Pages;
use crate::sealing::Sealing;
use ken_cover::Layer;
use ken_model::Value;
use std::alloc::AllocError;

impl Machine {
    ghost use Rattle.ken_core.specs.Seals.{HasRoomFor, IsRoomier, Seals};

    /// Makes room for a turn. Nothing else changes.
    pub(crate) fn make_room(&mut self, sealing: &Sealing) -> Result<(), AllocError>
        ensures same { IsRoomier self.old self.new }
        ensures room { OnOk result (HasRoomFor sealing.now self.new) }
    {
        self.pages.live.reserve(1)?;
        self.pages.ahead.reserve(1)?;
        self.ledger
            .make_room(sealing.mails.len(), sealing.outs.len())
    }

    /// Seals a turn, for which there is room.
    pub(crate) fn seal(&mut self, sealing: Sealing)
        requires room { HasRoomFor sealing self.old }
        requires known { All (λ m. m.to < length self.old.ledger.sent.items) sealing.mails.items }
        requires waits { counted_from self.old.ledger sealing.effects.from + 1 < 2 ^ 64 }
        requires sender { sealing.effects.from < 255 → sealing.effects.from < length self.old.ledger.consumed.items }
        requires within { AllByRecursion (λ c. c.page.page < length self.old.pages.unclean) sealing.live.changes }
        requires fit { AreFit (length self.old.pages.heap) sealing.live.changes }
        requires value { read_value (overlay self.old.pages.heap (map (λ c. c.page) sealing.live.changes)) ≡ Some sealing.value }
        ensures { Seals sealing self.old self.new }
    {
        let Sealing {
            value,
            live,
            ahead,
            effects,
            mails,
            outs,
        } = sealing;
        self.ledger.seal(effects, mails, outs);
        self.pages.hand(value, live, ahead);
    }
}

impl Pages {
    ghost use Rattle.ken_core.specs.Seals.{handed_image};

    /// Takes the record of a turn over, for which there is room.
    fn hand(&mut self, value: Value, live: Layer, ahead: Layer)
        requires live { vec_len self.old.live < vec_capacity self.old.live }
        requires ahead { deque_len self.old.ahead < deque_capacity self.old.ahead }
        requires within { AllByRecursion (λ c. c.page.page < length self.old.unclean) live.changes }
        requires fit { AreFit (length self.old.heap) live.changes }
        requires value { read_value (overlay self.old.heap (map (λ c. c.page) live.changes)) ≡ Some value }
        ensures turning { turn_pages self.new ≡ record { heap = overlay self.old.heap (map (λ c. c.page) live.changes); live = self.old.live.items ++ live ∷ [] } }
        ensures image { image_pages self.new ≡ handed_image live ahead (image_pages self.old) }
        ensures widths { KeepsWidths self.old self.new }
    {
        mark_changes(&mut self.unclean, live.changes.as_slice());
        self.heap.change(live.changes.as_slice(), value);
        self.live.push_reserved(live);
        if !ahead.changes.is_empty() {
            self.ahead.push_back_reserved(ahead);
        }
    }
}
