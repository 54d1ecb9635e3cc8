// Laws of wires, which no single call shows.
ghost use Rattle.std.specs.Prelude.{◌≡◌, ◌+◌, ◌-◌, ◌^◌, ℕ, ◌<◌, true, List, [], ◌∷◌, ◌++◌, length, map, slice_index_or, sum_by};
ghost use Rattle.std.specs.List.{Contains};
ghost use Rattle.crossbeam_queue.specs.Fifo.{Pushes, Pops, Forks, Merges, Learns};
ghost use Rattle.ken_model.specs.declared.messages.Message.{Message};
ghost use Rattle.ken_net.specs.History.{puts_for};
ghost use Rattle.ken_net.specs.Puts.{Put, MayPut};
ghost use Rattle.ken_wire.specs.declared.view.Sent.{Sent};
ghost use Rattle.ken_wire.specs.declared.view.View.{View};
ghost use Rattle.ken_wire.specs.Views.{nothing, after_put, sending, taking, spent};
ghost use Rattle.ken_wire.specs.Rule.{of, WireRule, Tells};
ghost use Rattle.ken_wire.specs.Ends.{Carried, WasHandedIn};
ghost use Rattle.ken_wire.specs.Nets.{Grew, sealed_to, consumed_to};

/// Where the ends of a wire to node `to` were new, and each went by the puts of its node, each packet heard is one that a
/// node may have put for `to` with what it handed in with its puts for `to`.
pub fn delivered()
    ensures { (to : ℕ) (sents : List Sent) (heard : List (List ℕ)) (puts : ℕ → List Put) (refused : ℕ → ℕ) → WasHandedIn to sents heard
        → ((k : ℕ) → k < length sents → Grew to (puts k) nothing 0 (slice_index_or sents k nothing) (refused k))
        → (bytes : List ℕ) → Contains heard bytes → (k : ℕ) × (k < length sents) × MayPut k to (sealed_to to (puts k)) (consumed_to to (puts k)) bytes }
{}

/// Where an end's count of what it gave back stands still, below its last value, each put for its node was put.
pub fn no_loss_is_uncounted()
    ensures { (to refused : ℕ) (puts : List Put) (a b : Sent) → refused < 2 ^ 64 - 1 → Grew to puts a refused b refused
        → b.put ≡ a.put ++ map (λ (p : Put). p.bytes) (puts_for to puts) }
{}

/// Each step of a wire keeps its rule, whatever is queued, and whatever the ends with other threads know: a put, with what
/// was handed in; a take; the making of the next node's end, and its return. Once all are back the taking end can tell what
/// the wire carried. The answers that a wire is full or empty change nothing.
pub fn each_step_keeps_the_rule()
    ensures new { WireRule [] (taking 0 [] [] ∷ []) }
    ensures put { (room end : ℕ) (v : View) (bytes : List ℕ) (to : ℕ) (sealed : List Message) (consumed : List (ℕ × ℕ)) → v.sends ≡ true → MayPut v.from to sealed consumed bytes
        → Pushes WireRule room end v bytes (λ w. w ≡ sending v.from (after_put sealed consumed bytes v.sent)) }
    ensures take { (end : ℕ) (v : View) → v.takes ≡ true → Pops WireRule end v (λ bytes w. w ≡ taking v.made (v.heard ++ bytes ∷ []) v.joined) }
    ensures seat { (end : ℕ) (v : View) → v.takes ≡ true → Forks WireRule end v (taking (v.made + 1) v.heard v.joined) (sending v.made nothing) }
    ensures join { (end : ℕ) (v : View) (other : ℕ) (u : View) → v.takes ≡ true → u.sends ≡ true → u.from ≡ length v.joined
        → Merges WireRule end v other u (taking v.made v.heard (v.joined ++ u.sent ∷ [])) spent }
    ensures told { (end : ℕ) (v : View) → v.takes ≡ true → Learns WireRule end v (Tells v.made v.joined v.heard) }
{}

/// Where as many packets were heard as were put in all, none was lost: of each node just its puts were heard, in order.
pub fn nothing_is_lost()
    ensures { (to : ℕ) (sents : List Sent) (heard : List (List ℕ)) → Carried to sents heard → length heard ≡ sum_by (λ (s : Sent). length s.put) sents
        → (k : ℕ) → k < length sents → of k heard ≡ (slice_index_or sents k nothing).put }
{}
