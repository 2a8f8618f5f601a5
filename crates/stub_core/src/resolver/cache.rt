//! Removal of entries from the cache of a resolver.

ghost use Rattle.std.specs.Prelude.{◌≡◌, [], IsOkUnless, OnErr, OnOk};
ghost use Rattle.stub_core.specs.Resolver.{cleared_names, with_entries};

use super::Resolver;
use dns_messages::Query;
use dns_names::{Name, ParseError};
use dns_text::IntoName;
use dns_wire::RecordType;
use std::alloc::AllocError;
use stub_client::{CachingClient, DnsHandle};
use stub_lookup::NetError;

impl<H: DnsHandle> Resolver<H> {
    ghost use Rattle.stub_core.specs.Resolver.{cleared_lookup, names_for};

    /// Removes all entries of the cache.
    pub fn clear_cache(&mut self)
        ensures { self.new ≡ record self.old { client = with_entries self.old.client [] } }
    {
        self.client.clear_cache();
    }

    /// Removes the entries of the cache for the questions that [`Resolver::lookup`] asks for a name and a type: one for
    /// each of the names that it attempts.
    ///
    /// Entries for the targets of aliases are kept. A text that is not a name has no entries. The only error is
    /// [`NetError::Memory`]; then nothing is removed.
    pub fn clear_lookup_cache<N: IntoName>(
        &mut self,
        name: N,
        record_type: RecordType,
    ) -> Result<(), NetError>
        ensures cleared { OnOk result (self.new ≡ record self.old {
          client = with_entries self.old.client (cleared_lookup self.old.settings (N.name name)
              record_type self.old.client.cache.entries);
        }) }
        ensures memory { OnErr result (self.new ≡ self.old) }
        ensures only_memory { IsOkUnless result NetError.Memory }
    {
        match name.into_name(self.alloc) {
            Ok(name) => Ok(self.clear_name(&name, record_type)?),
            // The name had no memory.
            Err(ParseError::Memory) => Err(NetError::Memory),
            Err(_) => Ok(()),
        }
    }

    /// Removes the entries of the cache for a type and each of the names that a lookup of a name attempts.
    fn clear_name(&mut self, name: &Name, record_type: RecordType) -> Result<(), AllocError>
        ensures cleared { OnOk result (self.new ≡ record self.old {
          client = with_entries self.old.client (cleared_names record_type
              (names_for self.old.settings name.now) self.old.client.cache.entries);
        }) }
        ensures memory { OnErr result (self.new ≡ self.old) }
    {
        let names = self.settings.names_for(self.alloc, name)?;
        clear_names(&mut self.client, names, record_type);
        Ok(())
    }
}

/// Removes the entries of the cache for a type and each of some names.
fn clear_names<C: DnsHandle>(
    client: &mut CachingClient<C>,
    names: Vec<Name>,
    record_type: RecordType,
)
    ensures { client.new ≡ with_entries client.old
        (cleared_names record_type names.items client.old.cache.entries) }
{
    for name in names {
        client.clear_cache_query(&Query::query(name, record_type));
    }
}
