//! Updates behind handles.

ghost use Rattle.std.specs.Prelude.{◌≡◌, ◌≢◌, Err, IfErr, IfOk, Option};
ghost use types.Logic.{sem};
ghost use Rattle.api.specs.messages.Updates.{update_of};
ghost use Rattle.dns_updates.specs.builder.Parts.{UpdateParts};
ghost use Rattle.rumstrait_c.specs.Updates.{Encoded, Extended, IsUnbegun, IsUpdateOf, begun_at, encoded_at, extended_at, handle_at};

use crate::codes::{NULL_HANDLE, code_of, result_code};
use api::buffer::{Refusal, deliver};
use api::messages::{add_item, new_update, update_bytes};
use dns_updates::builder::UpdateBuilder;
use std::alloc::Global;
use std::ptr::null_mut;

/// What C sees of an update.
#[repr(C)]
pub struct UpdateHandle {
    opaque: u8,
}

/// Makes an update of a zone, and writes its handle to `out`, or null if it is refused.
#[unsafe(no_mangle)]
pub extern "C" fn rumstrait_update_new(
    alloc: Global,
    zone: &[u8],
    out: &mut *mut UpdateHandle,
) -> i32
    ensures* handle { sem 𝓛 (begun_at alloc result out.new zone.now) }
{
    match begin(alloc, zone) {
        Ok(update) => {
            *out = Box::into_raw(update) as *mut UpdateHandle;
            0
        }
        Err(code) => {
            *out = null_mut();
            code
        }
    }
}

/// Adds a prerequisite or a change, unless the handle is null.
#[unsafe(no_mangle)]
pub unsafe extern "C" fn rumstrait_update_item(
    alloc: Global,
    update: *mut UpdateHandle,
    item: u32,
    name: &[u8],
    record_type: u16,
    ttl: u32,
    text: &[u8],
) -> i32
    ghost content: { Option UpdateParts }
    requires* { sem 𝓛 (handle_at alloc update content) }
    ensures* { sem 𝓛 (extended_at alloc update content item name.now record_type ttl text.now
        result) }
{
    if update.is_null() {
        return NULL_HANDLE;
    }
    add(
        alloc,
        unsafe { &mut *(update as *mut UpdateBuilder) },
        item,
        name,
        record_type,
        ttl,
        text,
    )
}

/// Writes the bytes of an update, unless the handle is null.
#[unsafe(no_mangle)]
pub unsafe extern "C" fn rumstrait_update_bytes(
    alloc: Global,
    update: *mut UpdateHandle,
    id: u16,
    bytes: &mut [u8],
    len: &mut usize,
) -> i32
    ghost content: { Option UpdateParts }
    requires* { sem 𝓛 (handle_at alloc update content) }
    ensures* { sem 𝓛 (encoded_at alloc update content id result bytes.old bytes.new len.old
        len.new) }
{
    if update.is_null() {
        return NULL_HANDLE;
    }
    encode(
        alloc,
        unsafe { &mut *(update as *mut UpdateBuilder) },
        id,
        bytes,
        len,
    )
}

/// Frees an update, unless the handle is null.
#[unsafe(no_mangle)]
pub unsafe extern "C" fn rumstrait_update_free(alloc: Global, update: *mut UpdateHandle)
    ghost content: { Option UpdateParts }
    requires* { sem 𝓛 (handle_at alloc update content) }
{
    if update.is_null() {
        return;
    }
    destroy(unsafe { Box::from_raw(alloc, update as *mut UpdateBuilder) });
}

/// Drops an update.
fn destroy(_update: Box<UpdateBuilder>) {}

/// Makes an update of a zone, on the heap.
fn begin(alloc: Global, zone: &[u8]) -> Result<Box<UpdateBuilder>, i32>
    ensures { IfOk result (λ update. IsUpdateOf zone.now update.value)
        × IfErr result (IsUnbegun zone.now) }
{
    match begin_on_heap(alloc, zone) {
        Ok(update) => Ok(update),
        Err(refusal) => Err(code_of(refusal)),
    }
}

/// Makes an update of a zone, and moves it to the heap.
fn begin_on_heap(alloc: Global, zone: &[u8]) -> Result<Box<UpdateBuilder>, Refusal>
    ensures begun { IfOk result (λ update. IsUpdateOf zone.now update.value) }
    ensures refused { IfErr result (λ reason. reason ≢ Refusal.Memory
        → update_of zone.now ≡ Err reason) }
{
    let update = new_update(alloc, zone)?;
    match Box::new(alloc, update) {
        Ok(moved) => Ok(moved),
        // Memory was refused for the update on the heap.
        Err(_) => Err(Refusal::Memory),
    }
}

/// Adds a prerequisite or a change.
fn add(
    alloc: Global,
    update: &mut UpdateBuilder,
    item: u32,
    name: &[u8],
    record_type: u16,
    ttl: u32,
    text: &[u8],
) -> i32
    ensures { Extended update.old item name.now record_type ttl text.now result update.new }
{
    result_code(add_item(alloc, update, item, name, record_type, ttl, text))
}

/// Writes the bytes of an update.
fn encode(
    alloc: Global,
    update: &mut UpdateBuilder,
    id: u16,
    bytes: &mut [u8],
    len: &mut usize,
) -> i32
    ensures { Encoded update.old id result bytes.old bytes.new len.old len.new update.new }
{
    result_code(deliver(update_bytes(alloc, update, id), bytes, len))
}
