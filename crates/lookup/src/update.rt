//! The words of an update.

use crate::update_fault::reason_of;
use dns_zone_file::Types;
use lookup_cli::{Ending, UpdateArguments};
use std::alloc::Global;
use stub_link::UpdateEvent;
use stub_net::IdSource;
use update_text::parse_update;

/// Returns the update that words say, under an id that is drawn for it.
pub(crate) fn update_of<I: IdSource>(
    alloc: Global,
    arguments: &UpdateArguments,
    ids: &mut I,
) -> Result<UpdateEvent, Ending> {
    let words = arguments.words.as_str();
    let Some(id) = ids.draw() else {
        return Err(Ending::NoEntropy);
    };
    match parse_update(alloc, words.as_bytes(), &arguments.zone, id, Types::All)? {
        Some(update) => Ok(update),
        None => {
            let reason = reason_of(alloc, words, &arguments.zone)?;
            Err(Ending::invalid(alloc, "--update", words, reason.as_str()))
        }
    }
}
