//! The lines of a script that give replies.

ghost use Rattle.std.specs.Prelude.{◌≡◌, ◌≢◌, IfErr, IfOk, Err, Ok, map, option_map, string_bytes};
ghost use Rattle.std.specs.Str.Lines.{lines};
ghost use Rattle.stub_script.specs.ReplyLine.{reply_content};
ghost use Rattle.stub_script.specs.ScriptText.{after_blanks};
ghost use Rattle.stub_script.specs.ReplyLines.{AreReplies, IsReplyLine, events_text, first_word, transport_named, transport_of};

use crate::reply_line::{GivenReply, ReplyTransport, read_reply};
use crate::script_text::{ScriptFault, lines_of};
use dns_zone_file::Types;
use std::alloc::{AllocError, Global};
use update_text::{is_blank, split_line};

/// Reads the replies that the lines of a script give, in order. A line that begins with the word `reply` or `stream` gives one:
///
/// - `reply NAME TYPE MESSAGE..`: the datagrams that are received after a question was sent in a datagram, or none;
/// - `stream NAME TYPE MESSAGE`: the message that is received over a stream (RFC 7766 section 5);
/// - `reply NAME TYPE server`, `stream NAME TYPE server`: the server answers again.
///
/// A `MESSAGE` is written in hexadecimal digits. `id` in front of them stands for the id of the request, and `-` for no bytes.
/// Types are named as zone files of these types may have them.
///
/// The error is [`ScriptFault::Line`] with the first such line that cannot be read.
pub fn read_replies(alloc: Global, text: &str, types: Types) -> Result<Vec<GivenReply>, ScriptFault>
    ensures ok { IfOk result (λ replies.
        AreReplies types 1 (lines text.now) (Ok (map reply_content replies.items))) }
    ensures refused { IfErr result (λ fault. fault ≢ ScriptFault.Memory
        → AreReplies types 1 (lines text.now) (Err fault)) }
{
    let all = lines_of(alloc, text)?;
    read_all(alloc, all.as_slice(), types)
}

/// Reads the replies that lines give.
fn read_all(alloc: Global, all: &[&str], types: Types) -> Result<Vec<GivenReply>, ScriptFault>
    ensures ok { IfOk result (λ replies.
        AreReplies types 1 (map (λ line. line.now) all.now) (Ok (map reply_content replies.items))) }
    ensures refused { IfErr result (λ fault. fault ≢ ScriptFault.Memory
        → AreReplies types 1 (map (λ line. line.now) all.now) (Err fault)) }
{
    let mut replies = Vec::new(alloc);
    for (i, line) in all.iter().enumerate() {
        let line = line.as_bytes();
        if let Some(transport) = transport_of(line) {
            match read_reply_line(alloc, i + 1, transport, line, types)? {
                Some(reply) => replies.push(reply)?,
                None => return Err(ScriptFault::Line(i + 1)),
            }
        }
    }
    Ok(replies)
}

/// Returns a script without its replies: each line that gives one is empty, so that all others keep their numbers.
pub fn without_replies(alloc: Global, text: &str) -> Result<String, AllocError>
    ensures { IfOk result (λ events. string_bytes events ≡ events_text (lines text.now)) }
{
    let all = lines_of(alloc, text)?;
    join_events(alloc, all.as_slice())
}

/// Joins lines to a text, with an empty one in the place of each that gives a reply.
fn join_events(alloc: Global, all: &[&str]) -> Result<String, AllocError>
    ensures { IfOk result (λ events.
        string_bytes events ≡ events_text (map (λ line. line.now) all.now)) }
{
    let mut events = String::new(alloc);
    for line in all {
        if transport_of(line.as_bytes()).is_none() {
            events.push_str(line)?;
        }
        events.push_str("\n")?;
    }
    Ok(events)
}

/// Reads a line that is to give a reply. Link words are none of its own.
fn read_reply_line(
    alloc: Global,
    number: usize,
    transport: ReplyTransport,
    line: &[u8],
    types: Types,
) -> Result<Option<GivenReply>, AllocError>
    ensures { IfOk result (λ found.
        IsReplyLine types number transport line.now (option_map reply_content found)) }
{
    let Some(line) = split_line(alloc, line)? else {
        return Ok(None);
    };
    match (line.words.as_slice(), line.more.as_slice()) {
        ([_, arguments @ ..], []) => read_reply(alloc, number, transport, arguments, types),
        _ => Ok(None),
    }
}

/// Returns how the reply is received that a line gives, or `None` if the line gives none.
fn transport_of(line: &[u8]) -> Option<ReplyTransport>
    ensures { result ≡ transport_of line.now }
{
    transport_named(first_word(after_blanks(line)))
}

/// Returns what the keyword of a line says of how its reply is received.
fn transport_named(word: &[u8]) -> Option<ReplyTransport>
    ensures { result ≡ transport_named word.now }
{
    if word == b"reply".as_slice() {
        return Some(ReplyTransport::Datagram);
    }
    if word == b"stream".as_slice() {
        return Some(ReplyTransport::Stream);
    }
    None
}

/// Returns a text from its first character on that is not blank.
fn after_blanks(text: &[u8]) -> &[u8]
    ensures { result.now ≡ after_blanks text.now }
{
    for (i, c) in text.iter().enumerate() {
        if !is_blank(*c) {
            return &text[i..];
        }
    }
    &[]
}

/// Returns a text up to its first blank.
fn first_word(text: &[u8]) -> &[u8]
    ensures { result.now ≡ first_word text.now }
{
    for (i, c) in text.iter().enumerate() {
        if is_blank(*c) {
            return &text[..i];
        }
    }
    text
}
