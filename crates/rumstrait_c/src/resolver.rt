//! Resolvers behind handles.

ghost use Rattle.std.specs.Prelude.{IfErr, IfOk, Option};
ghost use types.Logic.{sem};
ghost use Rattle.api.specs.lookups.Servers.{AreNoServers};
ghost use Rattle.api.specs.lookups.Table.{IsFirstTable};
ghost use Rattle.api.specs.declared.lookups.table.LookupTable.{LookupTable};
ghost use Rattle.rumstrait_c.specs.Lookups.{IsUnresolved, handle_at, resolves_at};

use crate::codes::lookup_code;
use api::lookups::{LookupRefusal, LookupTable};
use std::alloc::Global;
use std::ptr::null_mut;

/// What C sees of a resolver.
#[repr(C)]
pub struct ResolverHandle {
    opaque: u8,
}

/// Makes a resolver, and writes its handle to `out`, or null if it is refused.
#[unsafe(no_mangle)]
pub extern "C" fn rumstrait_resolver_new(
    alloc: Global,
    servers: &[u8],
    timeout: u32,
    attempts: u32,
    cache_size: u32,
    out: &mut *mut ResolverHandle,
) -> i32
    ensures* handle { sem 𝓛 (resolves_at alloc result out.new servers.now timeout attempts
        cache_size) }
{
    match resolve(alloc, servers, timeout, attempts, cache_size) {
        Ok(table) => {
            *out = Box::into_raw(table) as *mut ResolverHandle;
            0
        }
        Err(code) => {
            *out = null_mut();
            code
        }
    }
}

/// Frees a resolver and its lookups, unless the handle is null.
#[unsafe(no_mangle)]
pub unsafe extern "C" fn rumstrait_resolver_free(alloc: Global, resolver: *mut ResolverHandle)
    ghost content: { Option LookupTable }
    requires* { sem 𝓛 (handle_at alloc resolver content) }
{
    if resolver.is_null() {
        return;
    }
    destroy(unsafe { Box::from_raw(alloc, resolver as *mut LookupTable) });
}

/// Drops a resolver.
fn destroy(_table: Box<LookupTable>) {}

/// Makes a resolver, on the heap.
fn resolve(
    alloc: Global,
    servers: &[u8],
    timeout: u32,
    attempts: u32,
    cache_size: u32,
) -> Result<Box<LookupTable>, i32>
    ensures { IfOk result (λ table.
        IsFirstTable servers.now timeout attempts cache_size table.value)
        × IfErr result (IsUnresolved servers.now) }
{
    match resolve_on_heap(alloc, servers, timeout, attempts, cache_size) {
        Ok(table) => Ok(table),
        Err(refusal) => Err(lookup_code(refusal)),
    }
}

/// Makes a resolver, and moves it to the heap.
fn resolve_on_heap(
    alloc: Global,
    servers: &[u8],
    timeout: u32,
    attempts: u32,
    cache_size: u32,
) -> Result<Box<LookupTable>, LookupRefusal>
    ensures made { IfOk result (λ table.
        IsFirstTable servers.now timeout attempts cache_size table.value) }
    ensures refused { IfErr result (AreNoServers servers.now) }
{
    let table = LookupTable::new(alloc, servers, timeout, attempts, cache_size)?;
    match Box::new(alloc, table) {
        Ok(moved) => Ok(moved),
        // Memory was refused for the resolver on the heap.
        Err(_) => Err(LookupRefusal::Memory),
    }
}
