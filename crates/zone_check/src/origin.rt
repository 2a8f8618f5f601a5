//! Which warnings a program says that reads a zone file for a purpose of its own.

ghost use Rattle.std.specs.Prelude.{◌≡◌, not, IfOk};
ghost use Rattle.std.specs.List.{filter};
ghost use Rattle.zone_lines.specs.Line.{lines_of_file};
ghost use Rattle.zone_lines.specs.Source.{text_view};
ghost use Rattle.zone_lines.specs.warnings.Text.{has_directive};
ghost use Rattle.zone_lines.specs.warnings.Warning.{is_about_origin, is_about_servers};

use std::alloc::{AllocError, Global};
use zone_lines::warnings::{Warning, has_directive};
use zone_lines::{ZoneText, lines_of_file};

/// Returns `true` if some line of a zone file begins with `$ORIGIN`.
pub fn states_origin(alloc: Global, file: &ZoneText<'_>) -> Result<bool, AllocError>
    ensures { IfOk result (λ states.
        states ≡ has_directive (lines_of_file (text_view file.entry.now))) }
{
    let texts = lines_of_file(alloc, file)?;
    Ok(has_directive(texts.as_slice()))
}

/// Removes the warnings that are not about the origin: a program that reads a zone file for another purpose says no others.
pub fn keep_origin_warnings(warnings: &mut Vec<Warning>)
    ensures { warnings.new.items ≡ filter (λ w. is_about_origin w.kind) warnings.old.items }
{
    warnings.retain(move |warning| warning.kind.is_about_origin());
}

/// Removes the warning that the zone has no name servers: a program that answers by itself is found without them.
pub fn drop_server_warnings(warnings: &mut Vec<Warning>)
    ensures { warnings.new.items ≡ filter (λ w. not (is_about_servers w.kind)) warnings.old.items }
{
    warnings.retain(move |warning| !warning.kind.is_about_servers());
}
