// A node's heap, and turns that are made of it by given draws.
ghost use Rattle.std.specs.Prelude.{◌≡◌, ℕ, ◌*◌, ◌<◌, ◌≤◌, ◌^◌, length, Some, None, Ok, OnErr, IfOk, IfSome};
ghost use Rattle.std.specs.List.{AllByRecursion};
ghost use Rattle.ken_model.specs.declared.messages.Send.{Send as SendOf};
ghost use Rattle.ken_model.specs.Network.{empty_heap};
ghost use Rattle.ken_actors.specs.Decided.{IsDecided};
ghost use Rattle.ken_app.specs.Limited.{limited};
ghost use Rattle.ken_app.specs.Turning.{IsPlaced};
ghost use Rattle.ken_trial.specs.Given.{first_answers};

use crate::given::{Draws, Given};
use ken_actors::Played;
use ken_alloc::Objects;
use ken_app::{Made, Service, take_service_turn};
use ken_model::{Items, Message, Value};
use ken_pages::{MAX_PAGES, PageHeap};
use std::alloc::{AllocError, Global};
use std::marker::{Brand, Model};

/// A node's heap, with no turn begun.
#[derive(Debug, Drop)]
pub struct Heap {
    objects: Objects,
}

impl Model for Heap {
    ghost use Rattle.std.specs.Prelude.{◌≡◌, None};
    ghost use Rattle.ken_model.specs.declared.values.Value.{Value as HeapValue};

    ghost Value = { HeapValue };

    ghost view = { λ h. h.objects.value };

    ghost invariant = { λ h. h.objects.begun ≡ None };
}

impl Heap {
    /// A heap of so many pages, with no block and the root 0.
    pub(crate) fn empty(alloc: Global, pages: u32) -> Result<Self, AllocError>
        requires some { 1 ≤ pages }
        requires most { pages ≤ MAX_PAGES }
        ensures { IfOk result (λ h. h ≡ empty_heap (256 * pages)) }
    {
        let objects = Objects::format(PageHeap::new(alloc, pages)?)?;
        Ok(Heap { objects })
    }

    /// Makes a service's turn with these draws, and answers what it sent and output. `None` where the service takes other draws:
    /// then, and after an error, the heap is as before.
    pub(crate) fn play<S: Service>(
        &mut self,
        alloc: Global,
        service: &S,
        node: u8,
        nodes: u8,
        message: &Message,
        draws: &[u64],
    ) -> Result<Option<Played>, AllocError>
        requires { IsPlaced node nodes }
        ensures played { IfOk result (λ r. IfSome r (λ p. (limited (S.handler service.now)).after node nodes self.old message.now draws.now
            ≡ Some (record { value = self.new; sends = p.sends; outs = p.outs }))) }
        ensures known { IfOk result (λ r. IfSome r (λ p. AllByRecursion (λ (s : SendOf). s.to < nodes) p.sends)) }
        ensures few { IfOk result (λ r. IfSome r (λ p. length p.sends < 2 ^ 32)) }
        ensures undefined { result ≡ Ok None → IsDecided (limited (S.handler service.now))
            → (limited (S.handler service.now)).after node nodes self.old message.now draws.now ≡ None }
        ensures unchanged { result ≡ Ok None → self.new ≡ self.old }
        ensures err { OnErr result (self.new ≡ self.old) }
    {
        self.objects.stands();
        self.objects.begin();
        let objects = &mut self.objects;
        match turn_by::<Brand, S>(alloc, service, node, nodes, message, draws, objects) {
            Ok(made) if made.draws.as_slice() == draws => {
                self.objects.commit();
                Ok(Some(Played {
                    sends: Items::new(made.sends),
                    outs: Items::new(made.outs),
                }))
            }
            Ok(_other) => {
                self.objects.abort();
                Ok(None)
            }
            Err(fault) => {
                self.objects.abort();
                Err(fault)
            }
        }
    }

    pub(crate) fn root(&self) -> u64
        ensures { result ≡ self.now.root }
    {
        self.objects.root()
    }

    /// What it stands for, in memory of its own.
    pub(crate) fn value(&self, alloc: Global) -> Result<Value, AllocError>
        ensures { IfOk result (λ v. v ≡ self.now) }
    {
        self.objects.value(alloc)
    }
}

// Makes a service's turn by the draws: it draws them in order, and zeros once they are used up.
fn turn_by<D: Draws, S: Service>(
    alloc: Global,
    service: &S,
    node: u8,
    nodes: u8,
    message: &Message,
    draws: &[u64],
    objects: &mut Objects,
) -> Result<Made, AllocError>
    requires placed { IsPlaced node nodes }
    requires begun { objects.old.begun ≡ Some objects.old.bytes }
    requires draws { draws.now ≡ D.draws }
    ensures handled { IfOk result (λ made. (limited (S.handler service.now)).after node nodes objects.old.value message.now made.draws.items
        ≡ Some (record { value = objects.new.value; sends = made.sends.items; outs = made.outs.items })) }
    ensures drawn { IfOk result (λ made. (n : ℕ) × (made.draws.items ≡ first_answers n D.draws)) }
    ensures begun { objects.new.begun ≡ objects.old.begun }
{
    let mut given = Given::<D>::new(draws);
    let oracle = &mut given;
    take_service_turn(alloc, service, node, nodes, message, objects, oracle)
}
