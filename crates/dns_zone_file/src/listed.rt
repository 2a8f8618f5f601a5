//! The names of the texts that a text includes (RFC 1035 section 5.1).

ghost use Rattle.std.specs.Prelude.{◌≡◌, map, option_map, IfOk};
ghost use Rattle.dns_text.specs.Token.{lexeme};
ghost use Rattle.dns_zone_file.specs.Entry.{entry_of};
ghost use Rattle.dns_zone_file.specs.Listed.{name_in, ListsNames};
ghost use Rattle.dns_zone_file.specs.Parsing.{start_in};

use crate::entry::{Entry, entry_of, next_entry, text_name};
use crate::error::ZoneFileError;
use crate::types::Types;
use dns_text::{Lexer, Token};
use std::alloc::{AllocError, Global};

/// Returns the names that the `$INCLUDE` entries of a text state, in their order, as they are written. They end at the first
/// fault of the text. So a program can read the files of these names before it parses the text; they may include others.
pub fn included_names<'a>(
    alloc: Global,
    text: &'a str,
    types: Types,
) -> Result<Vec<&'a [u8]>, AllocError>
    ensures { IfOk result (λ names.
        ListsNames (start_in types text.now) (map (λ name. name.now) names.items)) }
{
    let mut lexer = Lexer::with_quotes(text, types.quotes());
    let mut names = Vec::new(alloc);
    loop {
        match next_entry(alloc, &mut lexer) {
            Ok(Some(tokens)) => {
                if let Some(name) = name_in(tokens.as_slice()) {
                    names.push(name)?;
                }
            }
            Ok(None) => return Ok(names),
            // Memory for the tokens was refused.
            Err(ZoneFileError::Memory) => return Err(AllocError),
            Err(_) => return Ok(names),
        }
    }
}

/// Returns the name of the text that an entry includes.
fn name_in<'a>(tokens: &[Token<'a>]) -> Option<&'a [u8]>
    ensures { option_map (λ name. name.now) result ≡ name_in (entry_of (map lexeme tokens.now)) }
{
    let Entry::Include(arguments) = entry_of(tokens) else {
        return None;
    };
    let [token, ..] = arguments else {
        return None;
    };
    text_name(*token)
}
