//! An entry of the log, and its line.

ghost use Rattle.std.specs.Prelude.{◌≡◌, Some};
ghost use Rattle.std.specs.Fmt.{WritesOnOk};
ghost use Rattle.dns_log.specs.Entry.{asked_text, counts_text, effects_text, entry_text, replied_text, sender_text, sizes_text, transport_text};

use crate::json::{JsonBool, JsonNumber, JsonText};
use crate::question::{LogQuestion, QuestionOrNull};
use std::fmt;

/// The transport of a request.
#[derive(Clone, Copy, Debug, PartialEq, Eq)]
pub enum LogTransport {
    /// A datagram: `udp`.
    Udp,
    /// A stream: `tcp`.
    Tcp,
}

/// The numbers of records in the sections of a reply.
#[derive(Clone, Copy, Debug, PartialEq, Eq)]
pub struct ReplyCounts {
    /// The answer section.
    pub answers: u16,
    /// The authority section.
    pub authorities: u16,
    /// The additional section, with the OPT record.
    pub additionals: u16,
}

/// What the log says of a request.
#[derive(Drop)]
pub struct LogEntry {
    /// The moment of the request, in milliseconds since the start.
    pub moment: u64,
    /// The address and port of the peer.
    pub peer: String,
    /// The transport.
    pub transport: LogTransport,
    /// The id of the request, or `None` if it has no header.
    pub id: Option<u16>,
    /// The number of the opcode of the request, or `None` if it has no header.
    pub op_code: Option<u8>,
    /// The question of the request, or `None` if it does not have exactly one.
    pub question: Option<LogQuestion>,
    /// The number of the response code, or `None` if nothing was sent.
    pub code: Option<u16>,
    /// The numbers of records in the reply.
    pub counts: ReplyCounts,
    /// The length of the request, in bytes.
    pub request_len: usize,
    /// The length of the reply, in bytes, or 0 if nothing was sent.
    pub reply_len: usize,
    /// The line of the rule that decided, or `None` if none did.
    pub fault_line: Option<usize>,
    /// Whether an update was applied.
    pub is_update_applied: bool,
}

impl fmt::Display for LogTransport {
    ghost output = { λ transport. Some (transport_text transport) };

    #[tactic(auto, unfolding(crate::specs::Entry::transport_text))]
    fn fmt<W: fmt::Write>(&self, f: &mut fmt::Formatter<W>) -> fmt::Result {
        match self {
            LogTransport::Udp => f.write_str("udp"),
            LogTransport::Tcp => f.write_str("tcp"),
        }
    }
}

impl fmt::Display for ReplyCounts {
    ghost output = { λ counts. Some (counts_text counts) };

    /// Writes members of a JSON object.
    #[tactic(auto, unfolding(crate::specs::Entry::counts_text))]
    fn fmt<W: fmt::Write>(&self, f: &mut fmt::Formatter<W>) -> fmt::Result {
        let ReplyCounts {
            answers,
            authorities,
            additionals,
        } = self;
        write!(
            f,
            "\"answers\":{answers},\"authorities\":{authorities},\"additionals\":{additionals}"
        )
    }
}

impl fmt::Display for LogEntry {
    ghost output = { λ entry. Some (entry_text entry) };

    /// Writes the entry as a JSON object, without a line feed.
    fn fmt<W: fmt::Write>(&self, f: &mut fmt::Formatter<W>) -> fmt::Result {
        self.write_sender(f)?;
        self.write_asked(f)?;
        self.write_replied(f)?;
        self.write_sizes(f)?;
        self.write_effects(f)
    }
}

impl LogEntry {
    /// Writes when and from where the request came.
    #[tactic(auto, unfolding(crate::specs::Entry::sender_text))]
    fn write_sender<W: fmt::Write>(&self, f: &mut fmt::Formatter<W>) -> fmt::Result
        ensures { WritesOnOk W.write_str_gives f.old result (sender_text self.now) f.new }
    {
        let moment = self.moment;
        let peer = JsonText(self.peer.as_bytes());
        let transport = self.transport;
        write!(
            f,
            "{{\"moment\":{moment},\"peer\":{peer},\"transport\":\"{transport}\""
        )
    }

    /// Writes what was asked.
    #[tactic(auto, unfolding(crate::specs::Entry::asked_text))]
    fn write_asked<W: fmt::Write>(&self, f: &mut fmt::Formatter<W>) -> fmt::Result
        ensures { WritesOnOk W.write_str_gives f.old result (asked_text self.now) f.new }
    {
        let id = JsonNumber(widened(self.id));
        let op_code = JsonNumber(widened_byte(self.op_code));
        let question = QuestionOrNull(&self.question);
        write!(
            f,
            ",\"id\":{id},\"opcode\":{op_code},\"question\":{question}"
        )
    }

    /// Writes what was replied.
    #[tactic(auto, unfolding(crate::specs::Entry::replied_text))]
    fn write_replied<W: fmt::Write>(&self, f: &mut fmt::Formatter<W>) -> fmt::Result
        ensures { WritesOnOk W.write_str_gives f.old result (replied_text self.now) f.new }
    {
        let code = JsonNumber(widened(self.code));
        let counts = self.counts;
        write!(f, ",\"code\":{code},{counts}")
    }

    /// Writes how long the messages were.
    #[tactic(auto, unfolding(crate::specs::Entry::sizes_text))]
    fn write_sizes<W: fmt::Write>(&self, f: &mut fmt::Formatter<W>) -> fmt::Result
        ensures { WritesOnOk W.write_str_gives f.old result (sizes_text self.now) f.new }
    {
        let request_len = self.request_len;
        let reply_len = self.reply_len;
        write!(
            f,
            ",\"request_bytes\":{request_len},\"reply_bytes\":{reply_len}"
        )
    }

    /// Writes which rule decided, and whether an update was applied.
    #[tactic(auto, unfolding(crate::specs::Entry::effects_text))]
    fn write_effects<W: fmt::Write>(&self, f: &mut fmt::Formatter<W>) -> fmt::Result
        ensures { WritesOnOk W.write_str_gives f.old result (effects_text self.now) f.new }
    {
        let line = JsonNumber(widened_line(self.fault_line));
        let updated = JsonBool(self.is_update_applied);
        write!(f, ",\"fault\":{line},\"updated\":{updated}}}")
    }
}

/// Returns a number with more bits.
fn widened(number: Option<u16>) -> Option<u64>
    ensures { result ≡ number }
{
    match number {
        Some(number) => Some(u64::from(number)),
        None => None,
    }
}

/// Returns a number with more bits.
fn widened_byte(number: Option<u8>) -> Option<u64>
    ensures { result ≡ number }
{
    match number {
        Some(number) => Some(u64::from(number)),
        None => None,
    }
}

/// Returns the number of a line with 64 bits.
fn widened_line(line: Option<usize>) -> Option<u64>
    ensures { result ≡ line }
{
    match line {
        Some(line) => Some(line as u64),
        None => None,
    }
}
