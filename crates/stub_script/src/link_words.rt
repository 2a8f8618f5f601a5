//! The words of a link script: nothing, `honest`, or the events of a list.

ghost use Rattle.std.specs.Prelude.{◌≡◌, IfOk, map, option_map};
ghost use Rattle.stub_script.specs.EventContent.{link_content};
ghost use Rattle.stub_script.specs.LinkWords.{is_honest, link_event, link_events, link_of_words, lettered_event};

use dns_wire::codes::parse_decimal;
use std::alloc::{AllocError, Global};
use stub_run::{LinkEvent, Script};

/// Reads a link script from its words.
pub(crate) fn read_link_words(
    alloc: Global,
    link_words: &[Vec<u8>],
) -> Result<Option<Script>, AllocError>
    ensures { IfOk result (λ found. option_map link_content found
        ≡ link_of_words (map (λ word. word.items) link_words.now)) }
{
    if is_honest(link_words) {
        return Ok(Some(Script::Honest));
    }
    match read_link_events(alloc, link_words)? {
        Some(events) => Ok(Some(Script::Listed(events))),
        None => Ok(None),
    }
}

/// Returns `true` if there is no word, or `honest` alone.
fn is_honest(link_words: &[Vec<u8>]) -> bool
    ensures { result ≡ is_honest (map (λ word. word.items) link_words.now) }
{
    match link_words {
        [] => true,
        [word] => word.as_slice() == b"honest".as_slice(),
        _ => false,
    }
}

/// Reads the event of each word.
fn read_link_events(
    alloc: Global,
    link_words: &[Vec<u8>],
) -> Result<Option<Vec<LinkEvent>>, AllocError>
    ensures { IfOk result (λ found. option_map (λ events. events.items) found
        ≡ link_events (map (λ word. word.items) link_words.now)) }
{
    let mut events = Vec::new(alloc);
    for word in link_words {
        let Some(event) = parse_link_event(word) else {
            return Ok(None);
        };
        events.push(event)?;
    }
    Ok(Some(events))
}

/// Parses a link event: `quiet`, `fail`, or a letter and a number.
fn parse_link_event(word: &[u8]) -> Option<LinkEvent>
    ensures { result ≡ link_event word.now }
{
    if word == b"quiet".as_slice() {
        return Some(LinkEvent::Quiet);
    }
    if word == b"fail".as_slice() {
        return Some(LinkEvent::Fail);
    }
    parse_lettered_event(word)
}

/// Parses a link event of a letter and a number: `q0`, `u0` or `r0`.
fn parse_lettered_event(word: &[u8]) -> Option<LinkEvent>
    ensures { result ≡ lettered_event word.now }
{
    let [letter, digits @ ..] = word else {
        return None;
    };
    let number = parse_decimal(digits, u64::MAX)? as usize;
    match *letter {
        b'q' => Some(LinkEvent::Question(number)),
        b'u' => Some(LinkEvent::Update(number)),
        b'r' => Some(LinkEvent::Reply(number)),
        _ => None,
    }
}
