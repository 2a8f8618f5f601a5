//! What is printed of replies: a line for each, and a line for each of its records.

use crate::replay::script::Event;
use dns_faults::Delivery;
use dns_messages::{Edns, Message, Metadata, Query, Record};
use dns_wire::DecodeError;
use dns_zone_file::Types;
use dns_zone_file::record_texts::{OwnerText, RecordText, TypeText};
use std::alloc::{AllocError, Global};
use std::fmt;
use std::net::SocketAddr;

/// Prints what a request led to.
pub fn show_answered(
    alloc: Global,
    event: &Event,
    delivery: &Delivery,
    printed: &mut String,
) -> Result<(), AllocError> {
    let line = event.line.as_str();
    let sending = Sending(delivery);
    match &delivery.reply {
        Some(reply) => {
            printed.push_str(format!(in alloc; "{line}:{sending}")?.as_str())?;
            show_message(alloc, event.is_raw, reply.as_slice(), printed)
        }
        None => printed.push_str(format!(in alloc; "{line}: no reply\n")?.as_str()),
    }
}

/// Prints the messages of the reply to a request for a transfer.
pub fn show_messages(
    alloc: Global,
    event: &Event,
    messages: &[Vec<u8>],
    printed: &mut String,
) -> Result<(), AllocError> {
    let line = event.line.as_str();
    let count = messages.len();
    printed.push_str(format!(in alloc; "{line}: {count} messages\n")?.as_str())?;
    for message in messages {
        printed.push_str(" ")?;
        show_message(alloc, event.is_raw, message.as_slice(), printed)?;
    }
    Ok(())
}

/// Prints a datagram that is sent to an address without a request, at a moment in milliseconds.
pub fn show_notice(
    alloc: Global,
    moment: u64,
    peer: SocketAddr,
    bytes: &[u8],
    printed: &mut String,
) -> Result<(), AllocError> {
    printed.push_str(format!(in alloc; "{moment} to {peer}:")?.as_str())?;
    show_message(alloc, false, bytes, printed)
}

/// Prints a message, as bytes if that is asked for or if it cannot be decoded.
fn show_message(
    alloc: Global,
    is_raw: bool,
    bytes: &[u8],
    printed: &mut String,
) -> Result<(), AllocError> {
    if is_raw {
        return show_bytes(alloc, bytes, printed);
    }
    match Message::from_vec(alloc, bytes) {
        Ok(message) => {
            let text = MessageText(&message);
            printed.push_str(format!(in alloc; "{text}")?.as_str())
        }
        // Memory for the message was refused.
        Err(DecodeError::Memory) => Err(AllocError),
        Err(_) => show_bytes(alloc, bytes, printed),
    }
}

/// Prints bytes in hexadecimal digits.
fn show_bytes(alloc: Global, bytes: &[u8], printed: &mut String) -> Result<(), AllocError> {
    let count = bytes.len();
    let digits = hex::encode(alloc, bytes)?;
    let digits = digits.as_str();
    printed.push_str(format!(in alloc; " {count} bytes\n  {digits}\n")?.as_str())
}

/// How a reply is sent, if it is not sent once, at once, over a connection that stays open.
#[derive(Clone, Copy)]
struct Sending<'a>(&'a Delivery);

impl fmt::Display for Sending<'_> {
    fn fmt<W: fmt::Write>(&self, f: &mut fmt::Formatter<W>) -> fmt::Result {
        let delivery = self.0;
        if delivery.after_milliseconds > 0 {
            let after = delivery.after_milliseconds;
            write!(f, " after {after} ms,")?;
        }
        if delivery.copies != 1 {
            let copies = delivery.copies;
            write!(f, " {copies} times,")?;
        }
        match delivery.close_after {
            Some(place) => write!(f, " closed after {place} bytes,"),
            None => Ok(()),
        }
    }
}

/// A message: its response code and its flags, and its records.
#[derive(Clone, Copy)]
struct MessageText<'a>(&'a Message);

impl fmt::Display for MessageText<'_> {
    fn fmt<W: fmt::Write>(&self, f: &mut fmt::Formatter<W>) -> fmt::Result {
        let message = self.0;
        let header = HeaderText(&message.metadata);
        writeln!(f, " {header}")?;
        write_questions(message.queries.as_slice(), f)?;
        write_records("answer", message.answers.as_slice(), f)?;
        write_records("authority", message.authorities.as_slice(), f)?;
        write_records("additional", message.additionals.as_slice(), f)?;
        write_edns(&message.edns, f)?;
        match message.signature() {
            Some(_) => f.write_str("  signed\n"),
            None => Ok(()),
        }
    }
}

/// A header: the response code, and the flags that are set.
#[derive(Clone, Copy)]
struct HeaderText<'a>(&'a Metadata);

impl fmt::Display for HeaderText<'_> {
    fn fmt<W: fmt::Write>(&self, f: &mut fmt::Formatter<W>) -> fmt::Result {
        let header = self.0;
        let code = header.response_code;
        write!(f, "{code}")?;
        write_flag(header.authoritative, " aa", f)?;
        write_flag(header.truncation, " tc", f)?;
        write_flag(header.recursion_desired, " rd", f)?;
        write_flag(header.recursion_available, " ra", f)?;
        write_flag(header.authentic_data, " ad", f)?;
        write_flag(header.checking_disabled, " cd", f)
    }
}

/// Writes the name of a flag, if it is set.
fn write_flag<W: fmt::Write>(is_set: bool, name: &str, f: &mut fmt::Formatter<W>) -> fmt::Result {
    if is_set { f.write_str(name) } else { Ok(()) }
}

/// Writes questions, each on a line of its own.
fn write_questions<W: fmt::Write>(questions: &[Query], f: &mut fmt::Formatter<W>) -> fmt::Result {
    for question in questions {
        let name = OwnerText {
            name: &question.name,
        };
        let record_type = TypeText {
            types: Types::All,
            record_type: question.query_type,
        };
        writeln!(f, "  question {name} {record_type}")?;
    }
    Ok(())
}

/// Writes the records of a section, each on a line of its own.
fn write_records<W: fmt::Write>(
    section: &str,
    records: &[Record],
    f: &mut fmt::Formatter<W>,
) -> fmt::Result {
    for record in records {
        let text = RecordText {
            types: Types::All,
            record,
        };
        writeln!(f, "  {section} {text}")?;
    }
    Ok(())
}

/// Writes what an OPT record offers, if there is one.
fn write_edns<W: fmt::Write>(edns: &Option<Edns>, f: &mut fmt::Formatter<W>) -> fmt::Result {
    let Some(edns) = edns else {
        return Ok(());
    };
    let size = edns.max_payload();
    let dnssec = if edns.flags().dnssec_ok { " do" } else { "" };
    writeln!(f, "  edns size={size}{dnssec}")
}
