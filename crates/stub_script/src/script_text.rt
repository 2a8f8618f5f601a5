//! The text of a script: one event a line.

ghost use Rattle.std.specs.Prelude.{◌≡◌, ◌≢◌, ◌≤◌, ◌+◌, IfOk, IfErr, IsOk, Ok, Err, [], drop, length, map, option_map};
ghost use Rattle.std.specs.Str.Lines.{lines};
ghost use Rattle.stub_script.specs.EventContent.{action_content, content_of, link_content};
ghost use Rattle.stub_script.specs.ScriptText.{IsAction, IsEvent, IsEventOfLine, IsScriptFrom, IsScriptOf, Means, contents_of, is_skipped, is_update, keyword_of, meaning_of, side_by_side, update_id};

use crate::clear_line::{read_clear, read_clear_all};
use crate::link_words::read_link_words;
use crate::lookup_line::{read_ip, read_lookup};
use crate::script_fields::parse_moment;
use crate::update_line::read_update;
use dns_names::Name;
use dns_zone_file::Types;
use std::alloc::{AllocError, AllocFailed, Global};
use stub_run::{Action, Event, Script};
use thiserror::Error;
use update_text::{is_blank, split_line};

/// The events of a script, in order.
#[derive(Drop)]
pub struct ScriptText {
    pub events: Vec<Event>,
    /// The line of each event, counted from 1.
    pub lines: Vec<usize>,
}

/// Why a text is not a script.
#[derive(Debug, Drop, Error)]
pub enum ScriptFault {
    /// A line, counted from 1, cannot be read.
    #[error("line {0} cannot be read")]
    Line(usize),
    /// Memory could not be allocated.
    #[error("out of memory")]
    Memory,
}

impl From<AllocError> for ScriptFault {
    ghost use Rattle.stub_script.specs.declared.script_text.ScriptFault.TheVariants.{Memory};

    ghost from_gives = { λ _ e. e ≡ Memory };

    fn from(_e: AllocError) -> ScriptFault {
        ScriptFault::Memory
    }
}

impl<T: Drop> From<AllocFailed<T>> for ScriptFault {
    ghost use Rattle.stub_script.specs.declared.script_text.ScriptFault.TheVariants.{Memory};

    ghost from_gives = { λ _ e. e ≡ Memory };

    fn from(_e: AllocFailed<T>) -> ScriptFault {
        ScriptFault::Memory
    }
}

/// The content of a line.
#[derive(Drop)]
enum LineContent {
    /// Blanks or a comment.
    Nothing,
    Holds(Event),
    Unreadable,
}

/// The keyword of a line.
#[derive(Clone, Copy)]
enum Keyword {
    Lookup,
    Ip,
    Clear,
    ClearAll,
    Update,
}

/// Reads the events of a script.
///
/// The origin is that of the zone: it completes the names of updates, and their owners must be at or below it. Names of
/// lookups may be relative, and stay so. The `k`-th update, from 0, has the id `k` modulo 65,536. Types are named, and data is
/// spelled, as zone files of these types may have them.
///
/// The error is [`ScriptFault::Line`] with the first line that cannot be read, also for an update that cannot be sent: one
/// that is longer than 65,535 bytes without compression, or that deletes a set of type `OPT`. An empty text takes no memory.
pub fn read_script(
    alloc: Global,
    text: &str,
    origin: &Name,
    types: Types,
) -> Result<ScriptText, ScriptFault>
    ensures ok { IfOk result (λ script. IsScriptOf types origin.now text.now
        (Ok (contents_of (side_by_side script.lines.items script.events.items)))) }
    ensures beside { IfOk result (λ script.
        length script.lines.items ≡ length script.events.items) }
    ensures refused { IfErr result (λ fault. fault ≢ ScriptFault.Memory
        → IsScriptOf types origin.now text.now (Err fault)) }
    ensures empty { text.now ≡ [] → IsOk result }
{
    if text.is_empty() {
        return Ok(no_events(alloc));
    }
    let all = lines_of(alloc, text)?;
    read_lines(alloc, all.as_slice(), origin, types)
}

/// Creates a script without events.
fn no_events(alloc: Global) -> ScriptText
    ensures events { result.events.items ≡ [] }
    ensures lines { result.lines.items ≡ [] }
{
    let events = Vec::new(alloc);
    let lines = Vec::new(alloc);
    ScriptText { events, lines }
}

/// Reads the events of a script's lines.
fn read_lines(
    alloc: Global,
    all: &[&str],
    origin: &Name,
    types: Types,
) -> Result<ScriptText, ScriptFault>
    ensures ok { IfOk result (λ script. IsScriptFrom types origin.now 0 1
        (map (λ line. line.now) all.now)
        (Ok (contents_of (side_by_side script.lines.items script.events.items)))) }
    ensures beside { IfOk result (λ script.
        length script.lines.items ≡ length script.events.items) }
    ensures refused { IfErr result (λ fault. fault ≢ ScriptFault.Memory
        → IsScriptFrom types origin.now 0 1 (map (λ line. line.now) all.now) (Err fault)) }
{
    let mut events = Vec::new(alloc);
    let mut lines = Vec::new(alloc);
    let mut update_count = 0_usize;
    for (i, line) in all.iter().enumerate() {
        match read_line(alloc, line, origin, update_id(update_count), types)? {
            LineContent::Nothing => {}
            LineContent::Unreadable => return Err(ScriptFault::Line(i + 1)),
            LineContent::Holds(event) => {
                update_count += usize::from(is_update(&event.action));
                events.push(event)?;
                lines.push(i + 1)?;
            }
        }
    }
    Ok(ScriptText { events, lines })
}

/// Returns the id of the update after this many.
fn update_id(update_count: usize) -> u16
    ensures { result ≡ update_id update_count }
{
    (update_count % 65_536) as u16
}

/// Returns `true` if an action is an update.
fn is_update(action: &Action) -> bool
    ensures { result ≡ is_update (action_content action.now) }
{
    matches!(action, Action::Update(_))
}

/// Returns the lines of a text.
pub(crate) fn lines_of(alloc: Global, text: &str) -> Result<Vec<&str>, AllocError>
    ensures { IfOk result (λ found. map (λ line. line.now) found.items ≡ lines text.now) }
{
    text.lines().collect(alloc)
}

/// Reads a line. An update has this id.
fn read_line(
    alloc: Global,
    line: &str,
    origin: &Name,
    id: u16,
    types: Types,
) -> Result<LineContent, AllocError>
    ensures { IfOk result (λ content. Means types origin.now id line.now (meaning_of content)) }
{
    let bytes = line.as_bytes();
    if is_skipped(bytes) {
        return Ok(LineContent::Nothing);
    }
    match read_event_line(alloc, bytes, origin, id, types)? {
        Some(event) => Ok(LineContent::Holds(event)),
        None => Ok(LineContent::Unreadable),
    }
}

/// Returns `true` if a line is blank or a comment. Blanks may come before its `#`.
fn is_skipped(line: &[u8]) -> bool
    ensures { result ≡ is_skipped line.now }
{
    for c in line {
        if !is_blank(*c) {
            return *c == b'#';
        }
    }
    true
}

/// Reads a line that is not skipped: words, and perhaps a link script after a semicolon.
fn read_event_line(
    alloc: Global,
    line: &[u8],
    origin: &Name,
    id: u16,
    types: Types,
) -> Result<Option<Event>, AllocError>
    ensures { IfOk result (λ found. IsEventOfLine types origin.now id line.now
        (option_map content_of found)) }
{
    let Some(line) = split_line(alloc, line)? else {
        return Ok(None);
    };
    match read_link_words(alloc, line.more.as_slice())? {
        Some(script) => read_event(alloc, line.words.as_slice(), script, origin, id, types),
        None => Ok(None),
    }
}

/// Reads an event from the words of its line, during which the link follows a script.
fn read_event(
    alloc: Global,
    line_words: &[Vec<u8>],
    script: Script,
    origin: &Name,
    id: u16,
    types: Types,
) -> Result<Option<Event>, AllocError>
    ensures { IfOk result (λ found. IsEvent types origin.now id (link_content script)
        (map (λ word. word.items) line_words.now) (option_map content_of found)) }
{
    let [at, keyword, arguments @ ..] = line_words else {
        return Ok(None);
    };
    let Some(at) = parse_moment(at) else {
        return Ok(None);
    };
    match read_action(alloc, keyword, arguments, origin, id, types)? {
        Some(action) => Ok(Some(Event { at, script, action })),
        None => Ok(None),
    }
}

/// Reads what happens in an event, from its keyword and the words after it.
fn read_action(
    alloc: Global,
    keyword: &[u8],
    arguments: &[Vec<u8>],
    origin: &Name,
    id: u16,
    types: Types,
) -> Result<Option<Action>, AllocError>
    ensures { IfOk result (λ found. IsAction types origin.now id (keyword_of keyword.now)
        (map (λ word. word.items) arguments.now) (option_map action_content found)) }
{
    match parse_keyword(keyword) {
        Some(Keyword::Lookup) => read_lookup(alloc, arguments, types),
        Some(Keyword::Ip) => read_ip(alloc, arguments),
        Some(Keyword::Clear) => read_clear(alloc, arguments, types),
        Some(Keyword::ClearAll) => Ok(read_clear_all(arguments)),
        Some(Keyword::Update) => read_update(alloc, arguments, origin, id, types),
        None => Ok(None),
    }
}

/// Parses a keyword.
fn parse_keyword(word: &[u8]) -> Option<Keyword>
    ensures { result ≡ keyword_of word.now }
{
    if word == b"lookup".as_slice() {
        return Some(Keyword::Lookup);
    }
    if word == b"ip".as_slice() {
        return Some(Keyword::Ip);
    }
    if word == b"clear".as_slice() {
        return Some(Keyword::Clear);
    }
    if word == b"clearall".as_slice() {
        return Some(Keyword::ClearAll);
    }
    if word == b"update".as_slice() {
        return Some(Keyword::Update);
    }
    None
}
