//! Lines of lookups: `<at> lookup <name> <type>` and `<at> ip <host>`.

ghost use Rattle.std.specs.Prelude.{◌≡◌, IfOk, map, option_map};
ghost use Rattle.stub_script.specs.EventContent.{action_content};
ghost use Rattle.stub_script.specs.LookupLine.{ip_of, lookup_of};

use crate::script_fields::{parse_host, parse_question};
use dns_zone_file::Types;
use std::alloc::{AllocError, Global};
use stub_run::Action;

/// Reads the lookup of a name and a type, from the words after the keyword.
pub(crate) fn read_lookup(
    alloc: Global,
    arguments: &[Vec<u8>],
    types: Types,
) -> Result<Option<Action>, AllocError>
    ensures { IfOk result (λ found. option_map action_content found
        ≡ lookup_of types (map (λ word. word.items) arguments.now)) }
{
    let [name, rtype] = arguments else {
        return Ok(None);
    };
    match parse_question(alloc, name, rtype, types)? {
        Some((name, rtype)) => Ok(Some(Action::Lookup { name, rtype })),
        None => Ok(None),
    }
}

/// Reads the lookup of a host, from the words after the keyword.
pub(crate) fn read_ip(alloc: Global, arguments: &[Vec<u8>]) -> Result<Option<Action>, AllocError>
    ensures { IfOk result (λ found. option_map action_content found
        ≡ ip_of (map (λ word. word.items) arguments.now)) }
{
    let [host] = arguments else {
        return Ok(None);
    };
    match parse_host(alloc, host)? {
        Some(host) => Ok(Some(Action::LookupIp { host })),
        None => Ok(None),
    }
}
