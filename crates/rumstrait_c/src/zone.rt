//! Zones behind handles.

ghost use Rattle.std.specs.Prelude.{IfErr, IfOk, Option};
ghost use types.Logic.{sem};
ghost use Rattle.dns_zone.specs.Rows.{ZoneContent};
ghost use Rattle.api.specs.zones.Zones as zones;
ghost use Rattle.api.specs.zones.Zones.{IsZoneOf};
ghost use Rattle.rumstrait_c.specs.Zones.{IsRefused, Printed, Served, TellsFault, handle_at, made_at, printed_at, served_at};

use crate::codes::{NULL_HANDLE, code_of, result_code};
use api::buffer::{Refusal, deliver};
use api::zones::{read_zone, serve_request, zone_fault, zone_text};
use dns_zone::Zone;
use std::alloc::Global;
use std::ptr::null_mut;

/// What C sees of a zone.
#[repr(C)]
pub struct ZoneHandle {
    opaque: u8,
}

/// Makes a zone of a zone file, and writes its handle to `out`, or null if it is refused.
#[unsafe(no_mangle)]
pub extern "C" fn rumstrait_zone_new(
    alloc: Global,
    text: &[u8],
    origin: &[u8],
    out: &mut *mut ZoneHandle,
) -> i32
    ensures* handle { sem 𝓛 (made_at alloc result out.new origin.now text.now) }
{
    match make(alloc, text, origin) {
        Ok(zone) => {
            *out = Box::into_raw(zone) as *mut ZoneHandle;
            0
        }
        Err(code) => {
            *out = null_mut();
            code
        }
    }
}

/// Writes the line of the fault of a text that is not the zone file of a zone, and a sentence on it.
#[unsafe(no_mangle)]
pub extern "C" fn rumstrait_zone_fault(
    alloc: Global,
    text: &[u8],
    origin: &[u8],
    line: &mut usize,
    sentence: &mut [u8],
    len: &mut usize,
) -> i32
    ensures { TellsFault origin.now text.now result line.old line.new sentence.old sentence.new
        len.old len.new }
{
    let found = zone_fault(alloc, text, origin, line);
    result_code(deliver(found, sentence, len))
}

/// Serves a request, unless the handle is null.
#[unsafe(no_mangle)]
pub unsafe extern "C" fn rumstrait_zone_serve(
    alloc: Global,
    zone: *mut ZoneHandle,
    transport: u32,
    limit: u16,
    request: &[u8],
    reply: &mut [u8],
    len: &mut usize,
) -> i32
    ghost content: { Option ZoneContent }
    requires* { sem 𝓛 (handle_at alloc zone content) }
    ensures* { sem 𝓛 (served_at alloc zone content transport limit request.now result reply.old
        reply.new len.old len.new) }
{
    if zone.is_null() {
        return NULL_HANDLE;
    }
    serve(
        alloc,
        unsafe { &mut *(zone as *mut Zone) },
        transport,
        limit,
        request,
        reply,
        len,
    )
}

/// Writes a zone as a zone file, unless the handle is null.
#[unsafe(no_mangle)]
pub unsafe extern "C" fn rumstrait_zone_text(
    alloc: Global,
    zone: *mut ZoneHandle,
    text: &mut [u8],
    len: &mut usize,
) -> i32
    ghost content: { Option ZoneContent }
    requires* { sem 𝓛 (handle_at alloc zone content) }
    ensures* { sem 𝓛 (printed_at alloc zone content result text.old text.new len.old len.new) }
{
    if zone.is_null() {
        return NULL_HANDLE;
    }
    print(alloc, unsafe { &mut *(zone as *mut Zone) }, text, len)
}

/// Frees a zone, unless the handle is null.
#[unsafe(no_mangle)]
pub unsafe extern "C" fn rumstrait_zone_free(alloc: Global, zone: *mut ZoneHandle)
    ghost content: { Option ZoneContent }
    requires* { sem 𝓛 (handle_at alloc zone content) }
{
    if zone.is_null() {
        return;
    }
    destroy(unsafe { Box::from_raw(alloc, zone as *mut Zone) });
}

/// Drops a zone.
fn destroy(_zone: Box<Zone>) {}

/// Makes a zone of a zone file, on the heap.
fn make(alloc: Global, text: &[u8], origin: &[u8]) -> Result<Box<Zone>, i32>
    ensures { IfOk result (λ zone. IsZoneOf origin.now text.now zone.value)
        × IfErr result (IsRefused origin.now text.now) }
{
    match read_to_heap(alloc, text, origin) {
        Ok(zone) => Ok(zone),
        Err(refusal) => Err(code_of(refusal)),
    }
}

/// Makes a zone of a zone file, and moves it to the heap.
fn read_to_heap(alloc: Global, text: &[u8], origin: &[u8]) -> Result<Box<Zone>, Refusal>
    ensures made { IfOk result (λ zone. IsZoneOf origin.now text.now zone.value) }
    ensures refused { IfErr result (zones.IsRefused origin.now text.now) }
{
    let zone = read_zone(alloc, text, origin)?;
    match Box::new(alloc, zone) {
        Ok(moved) => Ok(moved),
        // Memory was refused for the zone on the heap.
        Err(_) => Err(Refusal::Memory),
    }
}

/// Serves a request.
fn serve(
    alloc: Global,
    zone: &mut Zone,
    transport: u32,
    limit: u16,
    request: &[u8],
    reply: &mut [u8],
    len: &mut usize,
) -> i32
    ensures { Served zone.old transport limit request.now result reply.old reply.new len.old len.new
        zone.new }
{
    let room = reply.len();
    result_code(deliver(
        serve_request(alloc, zone, transport, limit, request, room),
        reply,
        len,
    ))
}

/// Writes a zone as a zone file.
fn print(_alloc: Global, zone: &mut Zone, text: &mut [u8], len: &mut usize) -> i32
    ensures { Printed zone.old result text.old text.new len.old len.new zone.new }
{
    result_code(deliver(zone_text(zone), text, len))
}
