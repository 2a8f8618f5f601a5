//! The events of a script, one a line.

use crate::ending::Ending;
use crate::replay::request::{RequestFault, request_of};
use dns_faults::rules::Transport;
use std::alloc::{AllocError, Global};
use std::net::{IpAddr, SocketAddr};

/// The port from which a request comes if its line has none.
const DEFAULT_PORT: u16 = 53_000;

/// The parts of a script.
#[derive(Drop)]
pub struct Script {
    /// The parts: at least one, of which the first may have no words.
    pub parts: Vec<Part>,
}

/// Requests to one server.
pub struct Part {
    /// The line of the server, as it is printed, or nothing for the server of the program's arguments.
    pub line: Option<String>,
    /// The arguments of the server, without the program's name.
    pub words: Vec<String>,
    /// The fault table of the server, if its line states rules.
    pub rules: Option<String>,
    /// The seconds since 1970 at moment 0.
    pub start: u64,
    /// The events, whose moments do not fall.
    pub events: Vec<Event>,
}

impl Drop for Part {
    fn drop(self) {
        let Part {
            line,
            words,
            rules,
            start: _start,
            events,
        } = self;
        drop(line);
        drop(words);
        drop(rules);
        drop(events);
    }
}

/// A request that arrives.
pub struct Event {
    /// Its line, as it is printed.
    pub line: String,
    /// When it arrives, in milliseconds.
    pub moment: u64,
    /// From where it is sent.
    pub peer: SocketAddr,
    /// How it arrives.
    pub transport: Transport,
    /// The message.
    pub bytes: Vec<u8>,
    /// Whether the message was given as bytes, so that replies are printed as bytes.
    pub is_raw: bool,
}

impl Drop for Event {
    fn drop(self) {
        let Event {
            line,
            moment: _moment,
            peer: _peer,
            transport: _transport,
            bytes,
            is_raw: _is_raw,
        } = self;
        drop(line);
        drop(bytes);
    }
}

/// Why a line is no event.
#[derive(Clone, Copy)]
enum LineFault {
    /// It does not begin with a moment.
    Moment,
    /// Its moment is before that of the event before it.
    Order,
    /// Its second word is no address.
    Peer,
    /// Its third word is neither `udp` nor `tcp`.
    Transport,
    /// What follows is no request.
    Request(RequestFault),
    /// What follows `at` is no number of seconds since 1970.
    Clock,
    /// Memory was refused.
    Memory,
}

impl From<AllocError> for LineFault {
    fn from(_error: AllocError) -> LineFault {
        // The memory was refused to the call that returned the error.
        LineFault::Memory
    }
}

/// Parses a script. Empty lines and lines that begin with `#` are skipped.
pub fn parse_script(alloc: Global, path: &str, text: &str) -> Result<Script, Ending> {
    let mut parts = Vec::new(alloc);
    let mut part = empty_part(alloc);
    let mut number: usize = 0;
    for line in text.lines() {
        number = number.saturating_add(1);
        let line = line.trim();
        if line.starts_with("server ") {
            parts.push(part)?;
            part = empty_part(alloc);
        }
        take_checked(alloc, path, number, &mut part, line)?;
    }
    parts.push(part)?;
    Ok(Script { parts })
}

/// Returns a part without events for the server of the program's arguments.
fn empty_part(alloc: Global) -> Part {
    Part {
        line: None,
        words: Vec::new(alloc),
        rules: None,
        start: 0,
        events: Vec::new(alloc),
    }
}

/// Takes the line of a server: the seconds since 1970 at moment 0 after `at`, if it has them, arguments, and the rules of a fault
/// table after `with`, if it has some.
fn set_server(alloc: Global, part: &mut Part, line: &str) -> Result<(), LineFault> {
    part.line = Some(String::from_str(alloc, line)?);
    let (_server, text) = first_word(line);
    let text = match text.split_once(" with ") {
        Some((words, rules)) => {
            part.rules = Some(rules.replace(alloc, " ; ", "\n")?);
            words
        }
        None => text,
    };
    let (at, rest) = first_word(text);
    if at != "at" {
        return set_words(alloc, part, text);
    }
    let (seconds, words) = first_word(rest);
    match seconds.parse::<u64>() {
        Ok(start) => part.start = start,
        Err(_) => return Err(LineFault::Clock),
    }
    set_words(alloc, part, words)
}

/// Takes the arguments of a server.
fn set_words(alloc: Global, part: &mut Part, text: &str) -> Result<(), LineFault> {
    for word in text.split(' ') {
        if !word.is_empty() {
            push_word(alloc, &mut part.words, word)?;
        }
    }
    Ok(())
}

/// Adds an argument.
fn push_word(alloc: Global, words: &mut Vec<String>, word: &str) -> Result<(), AllocError> {
    words.push(String::from_str(alloc, word)?)?;
    Ok(())
}

/// Takes a line of a script, or says what is wrong in it.
fn take_checked(
    alloc: Global,
    path: &str,
    number: usize,
    part: &mut Part,
    line: &str,
) -> Result<(), Ending> {
    match take_line(alloc, part, line) {
        Ok(()) => Ok(()),
        // Memory for the event was refused.
        Err(LineFault::Memory) => Err(Ending::Memory),
        Err(fault) => {
            let reason = reason_of(fault);
            Err(Ending::Refused(format!(in alloc; "{path}:{number}: {reason}\n")?))
        }
    }
}

/// Returns what is said of a fault.
fn reason_of(fault: LineFault) -> &'static str {
    match fault {
        LineFault::Moment =>
            "no moment: write `MOMENT ADDRESS udp REQUEST`, where the moment is in milliseconds",
        LineFault::Order => "the moment is before that of the event before it",
        LineFault::Peer => "no address: write one as 127.0.0.1, [::1]:5353 or 192.0.2.1:53",
        LineFault::Transport => "neither `udp` nor `tcp`",
        LineFault::Request(fault) => fault.reason(),
        LineFault::Clock => "no seconds since 1970: write `server at SECONDS FILE..`",
        LineFault::Memory => "out of memory",
    }
}

/// Takes a line of a part of a script, without blanks at its ends.
fn take_line(alloc: Global, part: &mut Part, line: &str) -> Result<(), LineFault> {
    if line.is_empty() || line.starts_with('#') {
        return Ok(());
    }
    if line.starts_with("server ") {
        return set_server(alloc, part, line);
    }
    let event = parse_event(alloc, line)?;
    if let Some(last) = part.events.last() {
        if event.moment < last.moment {
            return Err(LineFault::Order);
        }
    }
    match part.events.push(event) {
        Ok(()) => Ok(()),
        // Memory for the event was refused.
        Err(_) => Err(LineFault::Memory),
    }
}

/// Parses the line of an event: a moment, an address, a transport and a request.
fn parse_event(alloc: Global, line: &str) -> Result<Event, LineFault> {
    let (moment, rest) = first_word(line);
    let (peer, rest) = first_word(rest);
    let (transport, request) = first_word(rest);
    let Ok(moment) = moment.parse::<u64>() else {
        return Err(LineFault::Moment);
    };
    let Some(peer) = peer_of(peer) else {
        return Err(LineFault::Peer);
    };
    let Some(transport) = transport_of(transport) else {
        return Err(LineFault::Transport);
    };
    let found = match request_of(alloc, request) {
        Ok(found) => found,
        // Memory for the request was refused.
        Err(RequestFault::Memory) => return Err(LineFault::Memory),
        Err(fault) => return Err(LineFault::Request(fault)),
    };
    Ok(Event {
        line: String::from_str(alloc, line)?,
        moment,
        peer,
        transport,
        is_raw: found.is_raw,
        bytes: found.bytes,
    })
}

/// Returns the first word of a text without blanks at its ends, and what follows it. Without a blank, nothing does.
pub(crate) fn first_word(text: &str) -> (&str, &str) {
    match text.split_once(' ') {
        Some((word, rest)) => (word, rest.trim_start()),
        None => (text, ""),
    }
}

/// Returns the address that a word states, with a port or without one.
fn peer_of(word: &str) -> Option<SocketAddr> {
    if let Ok(peer) = word.parse::<SocketAddr>() {
        return Some(peer);
    }
    match word.parse::<IpAddr>() {
        Ok(address) => Some(SocketAddr::new(address, DEFAULT_PORT)),
        Err(_) => None,
    }
}

/// Returns the transport that a word states.
fn transport_of(word: &str) -> Option<Transport> {
    match word {
        "udp" => Some(Transport::Datagram),
        "tcp" => Some(Transport::Stream),
        _ => None,
    }
}
