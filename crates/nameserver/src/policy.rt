//! Keys and grants.

ghost use Rattle.std.specs.List.{AllZip};
ghost use Rattle.std.specs.Prelude.{◌≡◌, IfOk, map, string_bytes};
ghost use Rattle.nameserver_handlers.specs.Grants.{IsGrantOf};

use crate::files::read_key_file;
use dns_durable::Policy;
use dns_tsig::Key;
use dns_zone::Zone;
use nameserver_cli::{Arguments, Ending};
use nameserver_handlers::{add_keys, grants_of};

/// Reads the keys and the grants that the arguments name, which are for names of these zones. They say, too, how requests are
/// answered that are not updates.
pub(crate) fn read_policy(
    rt: &HostRuntime,
    arguments: &Arguments,
    zones: &[Zone],
) -> Result<Policy, Ending>
    ensures answering { IfOk result (λ policy. policy.answering ≡ arguments.now.answering) }
    ensures grants { IfOk result (λ policy. AllZip (IsGrantOf policy.keys.items zones.now)
        (map string_bytes arguments.now.durable.grants.items) policy.grants.items) }
{
    let keys = read_keys(rt, arguments.durable.keys.as_slice())?;
    let texts = arguments.durable.grants.as_slice();
    let grants = grants_of(rt.alloc(), texts, keys.as_slice(), zones)?;
    Ok(Policy {
        keys,
        grants,
        answering: arguments.answering,
    })
}

/// Reads key files.
fn read_keys(rt: &HostRuntime, paths: &[String]) -> Result<Vec<Key>, Ending> {
    let mut keys = Vec::new(rt.alloc());
    for path in paths {
        let path = path.as_str();
        let text = read_key_file(rt, path)?;
        add_keys(rt.alloc(), &mut keys, path, text.as_slice())?;
    }
    Ok(keys)
}
