//! Lookups of resolvers behind handles.

ghost use Rattle.std.specs.Prelude.{Option};
ghost use types.Logic.{sem};
ghost use Rattle.api.specs.declared.lookups.table.LookupTable.{LookupTable};
ghost use Rattle.rumstrait_c.specs.Lookups.{Answered, Awaited, Begun, Failed, Received, Removed, TimedOut, answered_at, awaited_at, begun_at, failed_at, handle_at, received_at, removed_at, timed_out_at};

use crate::codes::{NULL_HANDLE, code_of, done_code, lookup_code, result_code};
use crate::resolver::ResolverHandle;
use crate::wait::{Wait, wait_of};
use api::buffer::write_bytes;
use api::lookups::LookupTable;
use std::alloc::Global;

/// Begins a lookup, and writes its number to `lookup`, unless the handle is null.
#[unsafe(no_mangle)]
pub unsafe extern "C" fn rumstrait_lookup_begin(
    alloc: Global,
    resolver: *mut ResolverHandle,
    name: &[u8],
    record_type: u16,
    ids: &[u16],
    clock: u64,
    lookup: &mut u64,
) -> i32
    ghost content: { Option LookupTable }
    requires* { sem 𝓛 (handle_at alloc resolver content) }
    ensures* { sem 𝓛 (begun_at alloc resolver content name.now record_type ids.now clock result
        lookup.old lookup.new) }
{
    if resolver.is_null() {
        return NULL_HANDLE;
    }
    begin(
        alloc,
        unsafe { &mut *(resolver as *mut LookupTable) },
        name,
        record_type,
        ids,
        clock,
        lookup,
    )
}

/// Writes the message that a lookup awaits the reply to, and what to do with it, unless the handle is null.
#[unsafe(no_mangle)]
pub unsafe extern "C" fn rumstrait_lookup_wait(
    alloc: Global,
    resolver: *mut ResolverHandle,
    lookup: u64,
    wait: &mut Wait,
    message: &mut [u8],
    len: &mut usize,
) -> i32
    ghost content: { Option LookupTable }
    requires* { sem 𝓛 (handle_at alloc resolver content) }
    ensures* { sem 𝓛 (awaited_at alloc resolver content lookup result wait.old wait.new message.old
        message.new len.old len.new) }
{
    if resolver.is_null() {
        return NULL_HANDLE;
    }
    write_wait(
        alloc,
        unsafe { &mut *(resolver as *mut LookupTable) },
        lookup,
        wait,
        message,
        len,
    )
}

/// Tells a lookup that a message was received, unless the handle is null.
#[unsafe(no_mangle)]
pub unsafe extern "C" fn rumstrait_lookup_received(
    alloc: Global,
    resolver: *mut ResolverHandle,
    lookup: u64,
    message: &[u8],
    from: &[u8],
    clock: u64,
) -> i32
    ghost content: { Option LookupTable }
    requires* { sem 𝓛 (handle_at alloc resolver content) }
    ensures* { sem 𝓛 (received_at alloc resolver content lookup message.now from.now clock result) }
{
    if resolver.is_null() {
        return NULL_HANDLE;
    }
    receive(
        alloc,
        unsafe { &mut *(resolver as *mut LookupTable) },
        lookup,
        message,
        from,
        clock,
    )
}

/// Tells a lookup that the deadline of its wait has passed, unless the handle is null.
#[unsafe(no_mangle)]
pub unsafe extern "C" fn rumstrait_lookup_timed_out(
    alloc: Global,
    resolver: *mut ResolverHandle,
    lookup: u64,
    clock: u64,
) -> i32
    ghost content: { Option LookupTable }
    requires* { sem 𝓛 (handle_at alloc resolver content) }
    ensures* { sem 𝓛 (timed_out_at alloc resolver content lookup clock result) }
{
    if resolver.is_null() {
        return NULL_HANDLE;
    }
    time_out(
        alloc,
        unsafe { &mut *(resolver as *mut LookupTable) },
        lookup,
        clock,
    )
}

/// Tells a lookup that its message could not be sent, or that no reply can be received, unless the handle is null.
#[unsafe(no_mangle)]
pub unsafe extern "C" fn rumstrait_lookup_failed(
    alloc: Global,
    resolver: *mut ResolverHandle,
    lookup: u64,
    clock: u64,
) -> i32
    ghost content: { Option LookupTable }
    requires* { sem 𝓛 (handle_at alloc resolver content) }
    ensures* { sem 𝓛 (failed_at alloc resolver content lookup clock result) }
{
    if resolver.is_null() {
        return NULL_HANDLE;
    }
    fail(
        alloc,
        unsafe { &mut *(resolver as *mut LookupTable) },
        lookup,
        clock,
    )
}

/// Writes the records that a lookup found, unless the handle is null.
#[unsafe(no_mangle)]
pub unsafe extern "C" fn rumstrait_lookup_records(
    alloc: Global,
    resolver: *mut ResolverHandle,
    lookup: u64,
    text: &mut [u8],
    len: &mut usize,
) -> i32
    ghost content: { Option LookupTable }
    requires* { sem 𝓛 (handle_at alloc resolver content) }
    ensures* { sem 𝓛 (answered_at alloc resolver content lookup result text.old text.new len.old
        len.new) }
{
    if resolver.is_null() {
        return NULL_HANDLE;
    }
    answer(
        alloc,
        unsafe { &mut *(resolver as *mut LookupTable) },
        lookup,
        text,
        len,
    )
}

/// Removes a lookup, unless the handle is null.
#[unsafe(no_mangle)]
pub unsafe extern "C" fn rumstrait_lookup_free(
    alloc: Global,
    resolver: *mut ResolverHandle,
    lookup: u64,
) -> i32
    ghost content: { Option LookupTable }
    requires* { sem 𝓛 (handle_at alloc resolver content) }
    ensures* { sem 𝓛 (removed_at alloc resolver content lookup result) }
{
    if resolver.is_null() {
        return NULL_HANDLE;
    }
    remove(
        alloc,
        unsafe { &mut *(resolver as *mut LookupTable) },
        lookup,
    )
}

/// Begins a lookup, and writes its number.
fn begin(
    alloc: Global,
    table: &mut LookupTable,
    name: &[u8],
    record_type: u16,
    ids: &[u16],
    clock: u64,
    lookup: &mut u64,
) -> i32
    ensures { Begun table.old name.now record_type ids.now clock result lookup.old lookup.new
        table.new }
{
    match table.begin(alloc, name, record_type, ids, clock) {
        Ok(number) => {
            *lookup = number;
            0
        }
        Err(refusal) => lookup_code(refusal),
    }
}

/// Writes the message that a lookup awaits the reply to, and what to do with it.
fn write_wait(
    _alloc: Global,
    table: &mut LookupTable,
    lookup: u64,
    wait: &mut Wait,
    message: &mut [u8],
    len: &mut usize,
) -> i32
    ensures { Awaited table.old lookup result wait.old wait.new message.old message.new len.old
        len.new table.new }
{
    match table.awaited(lookup) {
        Ok((exchanges, awaited)) => {
            match write_bytes(awaited.outgoing.bytes.as_slice(), message, len) {
                Ok(()) => {
                    *wait = wait_of(exchanges, awaited);
                    0
                }
                Err(refusal) => code_of(refusal),
            }
        }
        Err(refusal) => lookup_code(refusal),
    }
}

/// Tells a lookup that a message was received.
fn receive(
    alloc: Global,
    table: &mut LookupTable,
    lookup: u64,
    message: &[u8],
    from: &[u8],
    clock: u64,
) -> i32
    ensures { Received table.old lookup message.now from.now clock result table.new }
{
    done_code(table.received(alloc, lookup, message, from, clock))
}

/// Tells a lookup that the deadline of its wait has passed.
fn time_out(_alloc: Global, table: &mut LookupTable, lookup: u64, clock: u64) -> i32
    ensures { TimedOut table.old lookup clock result table.new }
{
    done_code(table.timed_out(lookup, clock))
}

/// Tells a lookup that its message could not be sent, or that no reply can be received.
fn fail(_alloc: Global, table: &mut LookupTable, lookup: u64, clock: u64) -> i32
    ensures { Failed table.old lookup clock result table.new }
{
    done_code(table.failed(lookup, clock))
}

/// Writes the records that a lookup found.
fn answer(
    alloc: Global,
    table: &mut LookupTable,
    lookup: u64,
    text: &mut [u8],
    len: &mut usize,
) -> i32
    ensures { Answered table.old lookup result text.old text.new len.old len.new table.new }
{
    match table.answer(alloc, lookup) {
        Ok(found) => result_code(write_bytes(found.as_slice(), text, len)),
        Err(refusal) => lookup_code(refusal),
    }
}

/// Removes a lookup.
fn remove(_alloc: Global, table: &mut LookupTable, lookup: u64) -> i32
    ensures { Removed table.old lookup result table.new }
{
    done_code(table.discard(lookup))
}
