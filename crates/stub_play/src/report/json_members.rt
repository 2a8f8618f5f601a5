//! The members of the JSON object of an event: strings, or `null` (RFC 8259 sections 3 and 7).

ghost use Rattle.std.specs.Prelude.{◌≡◌, Some};
ghost use Rattle.std.specs.Fmt.{WritesOnOk};
ghost use Rattle.stub_play.specs.report.ReportJson.{error_code, event_host, event_name, event_type, event_word, reply_code, reply_error, text_or_null};
ghost use Rattle.stub_play.specs.report.ReportText.{reason_text};

use crate::report::shown::ShownReason;
use dns_log::JsonDisplay;
use dns_zone_file::Types;
use dns_zone_file::record_texts::TypeText;
use std::fmt;
use stub_lookup::{DnsError, NetError};
use stub_run::{Action, EventReply};

/// The keyword of an event, without quotes.
#[derive(Clone, Copy)]
pub(crate) struct EventWord<'a> {
    pub(crate) action: &'a Action,
}

/// The name that an event is about.
#[derive(Clone, Copy)]
pub(crate) struct EventName<'a> {
    pub(crate) action: &'a Action,
}

/// The type that an event is about.
#[derive(Clone, Copy)]
pub(crate) struct EventType<'a> {
    pub(crate) action: &'a Action,
    pub(crate) types: Types,
}

/// The host that an event is about.
#[derive(Clone, Copy)]
pub(crate) struct EventHost<'a> {
    pub(crate) action: &'a Action,
}

/// The response code of a reply, if it has one.
#[derive(Clone, Copy)]
pub(crate) struct ReplyCode<'a> {
    pub(crate) reply: &'a EventReply,
}

/// Why an event led to nothing, if it did.
#[derive(Clone, Copy)]
pub(crate) struct ReplyError<'a> {
    pub(crate) reply: &'a EventReply,
}

impl fmt::Display for EventWord<'_> {
    ghost output = { λ word. Some (event_word word.action.now) };

    fn fmt<W: fmt::Write>(&self, f: &mut fmt::Formatter<W>) -> fmt::Result {
        match self.action {
            Action::Lookup { .. } => f.write_str("lookup"),
            Action::LookupIp { .. } => f.write_str("ip"),
            Action::Clear { .. } => f.write_str("clear"),
            Action::ClearAll => f.write_str("clearall"),
            Action::Update(_) => f.write_str("update"),
        }
    }
}

impl fmt::Display for EventName<'_> {
    ghost output = { λ it. Some (text_or_null (event_name it.action.now)) };

    fn fmt<W: fmt::Write>(&self, f: &mut fmt::Formatter<W>) -> fmt::Result {
        match self.action {
            Action::Lookup { name, .. } | Action::Clear { name, .. } => {
                let name = JsonDisplay(name);
                write!(f, "{name}")
            }
            Action::LookupIp { .. } | Action::ClearAll | Action::Update(_) => f.write_str("null"),
        }
    }
}

impl fmt::Display for EventType<'_> {
    ghost output = { λ it. Some (text_or_null (event_type it.types it.action.now)) };

    fn fmt<W: fmt::Write>(&self, f: &mut fmt::Formatter<W>) -> fmt::Result {
        let types = self.types;
        match self.action {
            Action::Lookup { rtype, .. } | Action::Clear { rtype, .. } => {
                let rtype = JsonDisplay(TypeText {
                    types,
                    record_type: *rtype,
                });
                write!(f, "{rtype}")
            }
            Action::LookupIp { .. } | Action::ClearAll | Action::Update(_) => f.write_str("null"),
        }
    }
}

impl fmt::Display for EventHost<'_> {
    ghost output = { λ it. Some (text_or_null (event_host it.action.now)) };

    fn fmt<W: fmt::Write>(&self, f: &mut fmt::Formatter<W>) -> fmt::Result {
        match self.action {
            Action::LookupIp { host } => {
                let host = JsonDisplay(host.as_str());
                write!(f, "{host}")
            }
            Action::Lookup { .. } | Action::Clear { .. } | Action::ClearAll | Action::Update(_) => {
                f.write_str("null")
            }
        }
    }
}

impl fmt::Display for ReplyCode<'_> {
    ghost output = { λ it. Some (text_or_null (reply_code it.reply.now)) };

    fn fmt<W: fmt::Write>(&self, f: &mut fmt::Formatter<W>) -> fmt::Result {
        match self.reply {
            EventReply::Update(Ok(code)) => {
                let code = JsonDisplay(*code);
                write!(f, "{code}")
            }
            EventReply::Lookup(Err(error))
            | EventReply::LookupIp(Err(error))
            | EventReply::Cleared(Err(error))
            | EventReply::Update(Err(error)) => write_error_code(error, f),
            EventReply::Lookup(Ok(_)) | EventReply::LookupIp(Ok(_)) | EventReply::Cleared(Ok(_)) =>
                { f.write_str("null") }
        }
    }
}

/// Writes the response code of an error, if it has one.
fn write_error_code<W: fmt::Write>(error: &NetError, f: &mut fmt::Formatter<W>) -> fmt::Result
    ensures { WritesOnOk W.write_str_gives f.old result
        (text_or_null (error_code error.now)) f.new }
{
    match error {
        NetError::Dns(DnsError::NoRecordsFound(none)) => {
            let code = JsonDisplay(none.response_code);
            write!(f, "{code}")
        }
        NetError::Dns(DnsError::ResponseCode(code)) => {
            let code = JsonDisplay(*code);
            write!(f, "{code}")
        }
        NetError::Link(_)
        | NetError::Memory
        | NetError::Proto(_)
        | NetError::Message(_)
        | NetError::Unsupported => f.write_str("null"),
    }
}

impl fmt::Display for ReplyError<'_> {
    ghost output = { λ it. Some (text_or_null (reply_error it.reply.now)) };

    fn fmt<W: fmt::Write>(&self, f: &mut fmt::Formatter<W>) -> fmt::Result {
        match self.reply {
            EventReply::Lookup(Err(error))
            | EventReply::LookupIp(Err(error))
            | EventReply::Cleared(Err(error))
            | EventReply::Update(Err(error)) => {
                let reason = JsonDisplay(ShownReason { error });
                write!(f, "{reason}")
            }
            EventReply::Lookup(Ok(_))
            | EventReply::LookupIp(Ok(_))
            | EventReply::Cleared(Ok(_))
            | EventReply::Update(Ok(_)) => f.write_str("null"),
        }
    }
}
