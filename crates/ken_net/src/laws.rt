// Laws of packets and links, which no single call shows.
ghost use Rattle.std.specs.Prelude.{◌≡◌, ◌<◌, ◌≤◌, ◌++◌, ◌^◌, ℕ, true, List, length};
ghost use Rattle.std.specs.List.{All, Contains};
ghost use Rattle.ken_model.specs.declared.messages.Message.{Message};
ghost use Rattle.ken_packet.specs.Packets.{IsMail, IsAck, mail_bytes, ack_bytes};
ghost use Rattle.ken_packet.specs.Reading.{packet_of};
ghost use Rattle.ken_net.specs.declared.act.LinkAct.{LinkAct};
ghost use Rattle.ken_net.specs.Acts.{act_of};
ghost use Rattle.ken_net.specs.Puts.{Put, MayPut, MayBe, is_between, own_sealed, own_consumed};
ghost use Rattle.ken_net.specs.Standings.{Standing, Leaving, KeepsOwn, after_puts, all_passed};
ghost use Rattle.ken_net.specs.Origins.{ComesFrom, IsKept, WasThere};
ghost use Rattle.ken_net.specs.History.{AreNew, AreFor, passed_by};

/// A message that is spelled as mail may be put where it is handed in, an acknowledgement where at least its number is
/// handed in for its receiver, and a packet with its own mail or number alone.
pub fn what_may_be_put()
    ensures mail { (m : Message) (sealed : List Message) (consumed : List (ℕ × ℕ)) → IsMail m → Contains sealed m → MayPut m.from m.to sealed consumed (mail_bytes m) }
    ensures ack { (from to n k : ℕ) (sealed : List Message) (consumed : List (ℕ × ℕ))
        → IsAck from to n → Contains consumed (to, k) → n ≤ k → MayPut from to sealed consumed (ack_bytes from to n) }
    ensures alone { (from to : ℕ) (bytes : List ℕ) → is_between from to (packet_of bytes) ≡ true → MayPut from to (own_sealed (packet_of bytes)) (own_consumed (packet_of bytes)) bytes }
{}

/// Links from a node that were new pass on what the numbers of the puts say: at each put first what its own act says, and
/// then each packet that is held until this put. It doesn't matter how the puts are spread over networks.
pub fn passing_is_by_number()
    ensures { (from nodes : ℕ) (acts : List LinkAct) (l : Leaving) (so_far puts : List Put) → AreNew from nodes acts l → AreFor nodes (so_far ++ puts) → length (so_far ++ puts) < 2 ^ 64
        → all_passed puts (after_puts so_far l.links) ≡ passed_by (act_of acts from) so_far puts }
{}

/// Whatever puts there are, each packet that is passed on was put for the node that it is passed on for, or was kept for
/// it before, and so was each that is kept. What was kept hands in its own mail or number alone. Where each put may be put
/// and what is kept is the node's own, so may and is it then.
pub fn nothing_is_invented()
    ensures passed { (links : List Standing) (puts : List Put) (x : Put) → Contains (all_passed puts links) x → ComesFrom x puts links }
    ensures kept { (links : List Standing) (puts : List Put) (v : ℕ) (bytes : List ℕ) → IsKept v bytes (after_puts puts links) → WasThere v bytes puts links }
    ensures may { (l : Leaving) (puts : List Put) (x : Put) → KeepsOwn l → All (MayBe l.from) puts → Contains (all_passed puts l.links) x → MayBe l.from x }
    ensures own { (l : Leaving) (puts : List Put) → KeepsOwn l → All (MayBe l.from) puts → KeepsOwn (record l { links = after_puts puts l.links }) }
{}
