//! The retained messages that answer a SUBSCRIBE (MQTT 5.0, 3.3.1.3 and 3.8.4).

ghost use Rattle.std.specs.Prelude.{◌≡◌, ◌++◌, Some, List, OnOk, IfOk, IfErr};
ghost use Rattle.std.specs.FinMap as map;
ghost use Rattle.mqtt_message.specs.declared.delivery.Delivery.{Delivery as DeliveryValue};
ghost use Rattle.node_clients.specs.Subscribing.{Offers, OffersOne};
ghost use Rattle.node_work.specs.Acts.{AreAnswers};
ghost use Rattle.node_work.specs.Offers.{IsOffered};
ghost use Rattle.node_work.specs.Working.{ComesTo, Each};
ghost use Rattle.node_work.specs.declared.fault.NodeFault.TheVariants.{NoMemory};

use bridge_routes::offer_of;
use mqtt_fields::Text;
use mqtt_message::Delivery;
use node_work::{Asked, Granted, NodeFault, Work};

/// Offers the client's session the retained messages of each filter that asks for them.
pub fn offer_each(
    work: &mut Work,
    client: &Text,
    packet: u16,
    grants: &[Granted],
) -> Result<(), NodeFault>
    ensures { ComesTo (λ x. x) result work.old work.new (Offers client.now packet grants.now) }
{
    let offers = offers_of(work, grants)?;
    work.acknowledge()?;
    queue_each(work, client, offers)
}

/// The retained messages of each filter that asks for them, on their way to the client.
fn offers_of(work: &Work, grants: &[Granted]) -> Result<Vec<Delivery>, NodeFault>
    ensures ok { IfOk result (λ offers. AreAnswers work.now.held work.now.held.at grants.now offers.items) }
    ensures fault { IfErr result (λ e. e ≡ NoMemory) }
{
    let mut offers = Vec::new(work.alloc());
    for each in grants {
        add_asked(work, &each.asked, &mut offers)?;
    }
    Ok(offers)
}

/// Puts the retained messages of a filter last, where it asks for them.
fn add_asked(
    work: &Work,
    asked: &Option<Asked>,
    offers: &mut Vec<Delivery>,
) -> Result<(), NodeFault>
    ensures ok { OnOk result ((own : List DeliveryValue) × IsOffered work.now.held.at (map.entries work.now.held.store.retained) asked.now own × (offers.new.items ≡ offers.old.items ++ own)) }
    ensures fault { IfErr result (λ e. e ≡ NoMemory) }
{
    match asked {
        Some(asked) => add_offers(work, asked, offers),
        None => Ok(()),
    }
}

/// Puts the retained messages that a filter matches last.
fn add_offers(work: &Work, asked: &Asked, offers: &mut Vec<Delivery>) -> Result<(), NodeFault>
    ensures ok { OnOk result ((own : List DeliveryValue) × IsOffered work.now.held.at (map.entries work.now.held.store.retained) (Some asked.now) own × (offers.new.items ≡ offers.old.items ++ own)) }
    ensures fault { IfErr result (λ e. e ≡ NoMemory) }
{
    let held = work.held();
    let found = held.store().retained_for(&asked.filter, held.at())?;
    for message in &found {
        let offer = offer_of(work.alloc(), message, asked.options, &asked.identifiers)?;
        offers.push(offer)?;
    }
    Ok(())
}

/// Offers join the client's session in turn.
fn queue_each(work: &mut Work, client: &Text, offers: Vec<Delivery>) -> Result<(), NodeFault>
    ensures { ComesTo (λ x. x) result work.old work.new (Each (OffersOne client.now) offers.items) }
{
    for offer in offers {
        queue_one(work, client, offer)?;
    }
    Ok(())
}

/// An offer joins the client's session, and goes out where it can.
fn queue_one(work: &mut Work, client: &Text, offer: Delivery) -> Result<(), NodeFault>
    ensures { ComesTo (λ x. x) result work.old work.new (OffersOne client.now offer) }
{
    let _reaction = work.queue(client, offer)?;
    Ok(())
}
