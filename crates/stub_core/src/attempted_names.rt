//! The names that a lookup attempts (RFC 1123 section 6.1.4.3).

ghost use Rattle.std.specs.Prelude.{◌≡◌, ◌∷◌, Ok, option_map, reverse, IfOk, OnOk};
ghost use Rattle.dns_names.specs.Build.{append_domain};
ghost use Rattle.stub_core.specs.AttemptedNames.{attempted_names, is_complete, is_first, is_onion_path, joined_before, joined_names, search_zones};
ghost use Rattle.stub_hosts.specs.Hosts.{qualified};

use dns_names::{Name, ParseError};
use std::alloc::{AllocError, Global};

/// The length of the label that names an onion service of version 3, in bytes.
const ONION_SERVICE_LEN: usize = 56;

/// Returns the names that a lookup of a name attempts, in order, all of them fully qualified.
///
/// A fully qualified name and a name at or below an onion service are attempted alone. Any other name is joined with
/// `domain` and with each zone of `search`. As it is, it comes before these names if it has more than `ndots` labels, not
/// counting a leading `*`, or ends in `localhost`, and else after them. A joined name is left out if it is too long or
/// equal to one that is attempted later.
pub fn names_to_attempt(
    alloc: Global,
    name: &Name,
    ndots: usize,
    domain: Option<&Name>,
    search: &[Name],
) -> Result<Vec<Name>, AllocError>
    ensures { IfOk result (λ names. names.items
        ≡ attempted_names ndots (option_map (λ d. d.now) domain.entry) search.now name.now) }
{
    let mut stack = Vec::new(alloc);
    if is_complete(name) {
        push_qualified(&mut stack, name)?;
        return Ok(stack);
    }
    let is_first = is_first(name, ndots);
    if !is_first {
        push_qualified(&mut stack, name)?;
    }
    push_zones(&mut stack, name, domain, search)?;
    if is_first {
        push_qualified(&mut stack, name)?;
    }
    stack.reverse();
    Ok(stack)
}

/// Returns `true` if a name is attempted alone.
fn is_complete(name: &Name) -> bool
    ensures { result ≡ is_complete name.now }
{
    name.is_fqdn() || is_below_onion_service(name)
}

/// Returns `true` if a name is at or below that of an onion service of version 3.
fn is_below_onion_service(name: &Name) -> bool
    ensures { result ≡ is_onion_path (reverse name.now.labels) }
{
    let mut labels = name.iter();
    let Some(zone) = labels.next_back() else {
        return false;
    };
    let Some(service) = labels.next_back() else {
        return false;
    };
    zone.eq_ignore_ascii_case(b"onion") && service.len() == ONION_SERVICE_LEN
}

/// Returns `true` if a relative name is attempted as it is before it is joined with zones.
fn is_first(name: &Name, ndots: usize) -> bool
    ensures { result ≡ is_first ndots name.now }
{
    usize::from(name.num_labels()) > ndots || name.is_localhost()
}

/// Pushes a name as fully qualified. The top of the stack is attempted first.
fn push_qualified(stack: &mut Vec<Name>, name: &Name) -> Result<(), AllocError>
    ensures { OnOk result (reverse stack.new.items
        ≡ qualified name.now ∷ reverse stack.old.items) }
{
    let mut name = name.clone()?;
    name.set_fqdn(true);
    stack.push(name)?;
    Ok(())
}

/// Pushes a name joined with the domain and with each zone of the search list, from the last to the first.
fn push_zones(
    stack: &mut Vec<Name>,
    name: &Name,
    domain: Option<&Name>,
    search: &[Name],
) -> Result<(), AllocError>
    ensures { OnOk result (reverse stack.new.items ≡ joined_names name.now
        (search_zones (option_map (λ d. d.now) domain.entry) search.now) (reverse stack.old.items)) }
{
    push_search(stack, name, search)?;
    match domain {
        Some(domain) => push_joined(stack, name, domain),
        None => Ok(()),
    }
}

/// Pushes a name joined with each zone of the search list, from the last to the first.
fn push_search(stack: &mut Vec<Name>, name: &Name, search: &[Name]) -> Result<(), AllocError>
    ensures { OnOk result (reverse stack.new.items
        ≡ joined_names name.now search.now (reverse stack.old.items)) }
{
    for index in (0..search.len()).rev() {
        push_joined(stack, name, &search[index])?;
    }
    Ok(())
}

/// Pushes a name joined with a zone, unless it is too long or on the stack already.
fn push_joined(stack: &mut Vec<Name>, name: &Name, zone: &Name) -> Result<(), AllocError>
    ensures { OnOk result (reverse stack.new.items
        ≡ joined_before (append_domain name.now zone.now) (reverse stack.old.items)) }
{
    match name.clone()?.append_domain(zone) {
        Ok(joined) => push_distinct(stack, joined),
        // Memory was refused.
        Err(ParseError::Memory) => Err(AllocError),
        Err(_) => Ok(()),
    }
}

/// Pushes a name, unless it equals one that is on the stack.
fn push_distinct(stack: &mut Vec<Name>, name: Name) -> Result<(), AllocError>
    ensures { OnOk result (reverse stack.new.items
        ≡ joined_before (Ok name) (reverse stack.old.items)) }
{
    if !stack.contains(&name) {
        stack.push(name)?;
    }
    Ok(())
}
