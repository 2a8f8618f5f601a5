//! Updates: a zone, prerequisites and changes (RFC 2136 section 2).

ghost use Rattle.std.specs.Prelude.{◌≡◌, IfErr, IfOk, OnErr, OnOk};
ghost use Rattle.dns_wire.specs.Error.{IsUnless};
ghost use Rattle.api.specs.messages.Updates.{AddsEmpty, AddsFilled, AddsItem, EncodesWhole, IsEmptyUnadded, IsFilledUnadded, IsUnadded, IsUnfit, message_of, update_of};
ghost use Rattle.api.specs.messages.Items.{with_empty, with_filled};

use crate::buffer::{Refusal, name_in};
use crate::messages::data::data_in;
use crate::messages::encoding::encode;
use crate::messages::item::{EmptyItem, FilledItem, Item, item_of};
use dns_data::RData;
use dns_message_bytes::soundness::{fits_uncompressed, is_sound};
use dns_messages::Message;
use dns_messages::laws::messages_within_the_limit_are_not_cut;
use dns_names::Name;
use dns_updates::builder::UpdateBuilder;
use dns_wire::{DNSClass, RecordType};
use std::alloc::{AllocError, Global};

/// Returns an update of the zone with a name, of the class `IN`, without prerequisites and changes.
///
/// # Errors
///
/// - [`Refusal::Name`] if the text is no name;
/// - [`Refusal::Memory`] if memory is refused.
pub fn new_update(alloc: Global, zone: &[u8]) -> Result<UpdateBuilder, Refusal>
    ensures { IsUnless Refusal.Memory (update_of zone.now) result }
{
    match name_in(alloc, zone) {
        Ok(zone) => Ok(UpdateBuilder::new(alloc, zone, DNSClass::IN)),
        Err(refusal) => Err(refusal),
    }
}

/// Adds the item with a number to an update, as for [`item_of`], with those of the other arguments that it has. Data is written
/// as in a zone file, and its relative names end in the zone's name.
///
/// # Errors
///
/// - [`Refusal::Item`] if no item has this number;
/// - [`Refusal::Name`] if `name` is no name;
/// - [`Refusal::Encoding`] if the item has data, and `text` is not UTF-8;
/// - [`Refusal::Data`] if the item has data, and `text` is no data of the type;
/// - [`Refusal::Memory`] if memory is refused.
pub fn add_item(
    alloc: Global,
    update: &mut UpdateBuilder,
    item: u32,
    name: &[u8],
    record_type: u16,
    ttl: u32,
    text: &[u8],
) -> Result<(), Refusal>
    ensures ok { OnOk result
        (AddsItem update.old item name.now record_type ttl text.now update.new) }
    ensures refused { IfErr result (IsUnadded update.old item name.now record_type text.now) }
    ensures err { OnErr result (update.new ≡ update.old) }
{
    let record_type = RecordType::from(record_type);
    match item_of(item) {
        Some(Item::Empty(item)) => add_empty(alloc, update, item, name, record_type),
        Some(Item::Filled(item)) => add_filled(alloc, update, item, name, record_type, ttl, text),
        None => Err(Refusal::Item),
    }
}

/// Adds an item without data.
fn add_empty(
    alloc: Global,
    update: &mut UpdateBuilder,
    item: EmptyItem,
    name: &[u8],
    record_type: RecordType,
) -> Result<(), Refusal>
    ensures ok { OnOk result (AddsEmpty update.old item name.now record_type update.new) }
    ensures refused { IfErr result (IsEmptyUnadded name.now) }
    ensures err { OnErr result (update.new ≡ update.old) }
{
    let name = name_in(alloc, name)?;
    push_empty(update, item, name, record_type)?;
    Ok(())
}

/// Adds an item without data, of a name.
fn push_empty(
    update: &mut UpdateBuilder,
    item: EmptyItem,
    name: Name,
    record_type: RecordType,
) -> Result<(), AllocError>
    ensures ok { OnOk result (update.new ≡ with_empty item name record_type update.old) }
    ensures err { OnErr result (update.new ≡ update.old) }
{
    match item {
        EmptyItem::RequireName => update.require_name(name),
        EmptyItem::ForbidName => update.forbid_name(name),
        EmptyItem::RequireSet => update.require_rrset(name, record_type),
        EmptyItem::ForbidSet => update.forbid_rrset(name, record_type),
        EmptyItem::DeleteSet => update.delete_rrset(name, record_type),
        EmptyItem::DeleteName => update.delete_name(name),
    }
}

/// Adds an item with data.
fn add_filled(
    alloc: Global,
    update: &mut UpdateBuilder,
    item: FilledItem,
    name: &[u8],
    record_type: RecordType,
    ttl: u32,
    text: &[u8],
) -> Result<(), Refusal>
    ensures ok { OnOk result
        (AddsFilled update.old item name.now record_type ttl text.now update.new) }
    ensures refused { IfErr result
        (IsFilledUnadded update.old.zone name.now record_type text.now) }
    ensures err { OnErr result (update.new ≡ update.old) }
{
    let name = name_in(alloc, name)?;
    let rdata = data_in(alloc, record_type, text, update.zone())?;
    push_filled(update, item, name, ttl, rdata)?;
    Ok(())
}

/// Adds an item with data, of a name.
fn push_filled(
    update: &mut UpdateBuilder,
    item: FilledItem,
    name: Name,
    ttl: u32,
    rdata: RData,
) -> Result<(), AllocError>
    ensures ok { OnOk result (update.new ≡ with_filled item name ttl rdata update.old) }
    ensures err { OnErr result (update.new ≡ update.old) }
{
    match item {
        FilledItem::RequireRecord => update.require_record(name, rdata),
        FilledItem::AddRecord => update.add(name, ttl, rdata),
        FilledItem::DeleteRecord => update.delete_record(name, rdata),
    }
}

/// Returns the bytes of an update, with an id.
///
/// # Errors
///
/// - [`Refusal::TooLong`] if it has more than 65,535 bytes;
/// - [`Refusal::Update`] if it has an item that no message can have, such as one of the type `OPT`;
/// - [`Refusal::Memory`] if memory is refused.
pub fn update_bytes(alloc: Global, update: &UpdateBuilder, id: u16) -> Result<Vec<u8>, Refusal>
    ensures bytes { IfOk result (λ bytes. EncodesWhole (message_of update.now id) bytes.items) }
    ensures refused { IfErr result (IsUnfit (message_of update.now id)) }
{
    let message = update.to_message(alloc, id)?;
    whole_bytes(alloc, &message)
}

/// Returns the bytes of a message, of which nothing is left out.
fn whole_bytes(alloc: Global, message: &Message) -> Result<Vec<u8>, Refusal>
    ensures bytes { IfOk result (λ bytes. EncodesWhole message.now bytes.items) }
    ensures refused { IfErr result (IsUnfit message.now) }
{
    if !fits_uncompressed(message, u16::MAX) {
        return Err(Refusal::TooLong);
    }
    if !is_sound(message) {
        return Err(Refusal::Update);
    }
    messages_within_the_limit_are_not_cut();
    encode(alloc, message)
}
