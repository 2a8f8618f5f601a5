//! Messages as text.

ghost use Rattle.std.specs.Prelude.{◌≡◌, Some, codes};
ghost use Rattle.std.specs.Fmt.{WritesOnOk};
ghost use Rattle.dns_messages.specs.Cut.{last_count, listed};
ghost use Rattle.dns_messages.specs.Printed.{additionals_count, answers_count, answers_text, authorities_count, authorities_text, count_text, counts_part, edns_line, edns_section, flag_text, flags_part, header_lines, is_response, message_text, name_in, options_line, queries_count, queries_text, question_lines, question_section, record_lines, record_section, reserved_text, sections_text, status_line, title_lines};
ghost use Rattle.dns_messages.specs.ResponseCode.{status_text};

use super::Message;
use crate::edns::Edns;
use crate::header::Metadata;
use crate::message_type::MessageType;
use crate::op_code::OpCode;
use crate::query::Query;
use crate::response_code::ResponseCode;
use dns_data::OPT;
use dns_records::{Record, Sequence};
use std::fmt;

impl fmt::Display for Message {
    ghost output = { λ m. Some (message_text m) };

    /// Writes the message in the layout of dig: the header in two lines, and each section that is not empty after an empty
    /// line and a title, with a line for each question or record.
    ///
    /// ```text
    /// ;; ->>HEADER<<- opcode: QUERY, status: NOERROR, id: 7
    /// ;; flags: qr aa rd; QUERY: 1, ANSWER: 1, AUTHORITY: 0, ADDITIONAL: 0
    ///
    /// ;; QUESTION SECTION:
    /// ;a.t. IN A
    ///
    /// ;; ANSWER SECTION:
    /// a.t. 60 IN A 10.0.0.1
    /// ```
    fn fmt<W: fmt::Write>(&self, f: &mut fmt::Formatter<W>) -> fmt::Result {
        write_header(self, f)?;
        write_edns(&self.edns, f)?;
        write_sections(self, f)?;
        write_signature(&self.signature, f)
    }
}

/// Returns what a section is called in an update (RFC 2136 section 2), or elsewhere.
fn name_in(op_code: OpCode, in_update: &'static str, elsewhere: &'static str) -> &'static str
    ensures { result.now ≡ name_in op_code in_update.now elsewhere.now }
{
    match op_code {
        OpCode::Update => in_update,
        _ => elsewhere,
    }
}

/// Writes the two lines of the header.
fn write_header<W: fmt::Write>(message: &Message, f: &mut fmt::Formatter<W>) -> fmt::Result
    ensures { WritesOnOk W.write_str_gives f.old result (header_lines message.now) f.new }
{
    write_status_line(&message.metadata, f)?;
    write_flags(&message.metadata, f)?;
    write_counts(message, f)
}

/// Writes opcode, response code and id.
fn write_status_line<W: fmt::Write>(metadata: &Metadata, f: &mut fmt::Formatter<W>) -> fmt::Result
    ensures { WritesOnOk W.write_str_gives f.old result (status_line metadata.now) f.new }
{
    let (op_code, id) = (metadata.op_code, metadata.id);
    write!(f, ";; ->>HEADER<<- opcode: {op_code}, status: ")?;
    write_status(metadata.response_code, f)?;
    writeln!(f, ", id: {id}")
}

/// Writes a response code in capitals.
fn write_status<W: fmt::Write>(code: ResponseCode, f: &mut fmt::Formatter<W>) -> fmt::Result
    ensures { WritesOnOk W.write_str_gives f.old result (status_text code) f.new }
{
    match code {
        ResponseCode::NoError => f.write_str("NOERROR"),
        ResponseCode::FormErr => f.write_str("FORMERR"),
        ResponseCode::ServFail => f.write_str("SERVFAIL"),
        ResponseCode::NXDomain => f.write_str("NXDOMAIN"),
        ResponseCode::NotImp => f.write_str("NOTIMP"),
        ResponseCode::Refused => f.write_str("REFUSED"),
        ResponseCode::YXDomain => f.write_str("YXDOMAIN"),
        ResponseCode::YXRRSet => f.write_str("YXRRSET"),
        ResponseCode::NXRRSet => f.write_str("NXRRSET"),
        ResponseCode::NotAuth => f.write_str("NOTAUTH"),
        ResponseCode::NotZone => f.write_str("NOTZONE"),
        ResponseCode::BADVERS | ResponseCode::BADSIG => f.write_str("BADVERS"),
        ResponseCode::BADKEY => f.write_str("BADKEY"),
        ResponseCode::BADTIME => f.write_str("BADTIME"),
        ResponseCode::BADMODE => f.write_str("BADMODE"),
        ResponseCode::BADNAME => f.write_str("BADNAME"),
        ResponseCode::BADALG => f.write_str("BADALG"),
        ResponseCode::BADTRUNC => f.write_str("BADTRUNC"),
        ResponseCode::BADCOOKIE => f.write_str("BADCOOKIE"),
        ResponseCode::Unknown(number) => write!(f, "CODE{number}"),
    }
}

/// Begins the second line of the header with the flags that are set.
fn write_flags<W: fmt::Write>(metadata: &Metadata, f: &mut fmt::Formatter<W>) -> fmt::Result
    ensures { WritesOnOk W.write_str_gives f.old result (flags_part metadata.now) f.new }
{
    let qr = flag(is_response(metadata.message_type), " qr");
    let aa = flag(metadata.authoritative, " aa");
    let tc = flag(metadata.truncation, " tc");
    let rd = flag(metadata.recursion_desired, " rd");
    let ra = flag(metadata.recursion_available, " ra");
    let ad = flag(metadata.authentic_data, " ad");
    let cd = flag(metadata.checking_disabled, " cd");
    write!(f, ";; flags:{qr}{aa}{tc}{rd}{ra}{ad}{cd}; ")
}

/// Returns QR.
fn is_response(message_type: MessageType) -> bool
    ensures { result ≡ is_response message_type }
{
    matches!(message_type, MessageType::Response)
}

/// Returns the name of a flag if the flag is set, and an empty text if it is clear.
fn flag(is_set: bool, name: &'static str) -> &'static str
    ensures { result.now ≡ flag_text is_set name.now }
{
    if is_set { name } else { "" }
}

/// Ends the second line of the header with the numbers of entries in the four sections.
fn write_counts<W: fmt::Write>(message: &Message, f: &mut fmt::Formatter<W>) -> fmt::Result
    ensures { WritesOnOk W.write_str_gives f.old result (counts_part message.now) f.new }
{
    write_queries_count(message, f)?;
    write_answers_count(message, f)?;
    write_authorities_count(message, f)?;
    write_additionals_count(message, f)
}

/// Writes the number of entries in a section.
fn write_count<W: fmt::Write>(name: &str, count: usize, f: &mut fmt::Formatter<W>) -> fmt::Result
    ensures { WritesOnOk W.write_str_gives f.old result (count_text name.now count) f.new }
{
    write!(f, "{name}: {count}, ")
}

/// Writes the number of questions.
fn write_queries_count<W: fmt::Write>(message: &Message, f: &mut fmt::Formatter<W>) -> fmt::Result
    ensures { WritesOnOk W.write_str_gives f.old result (queries_count message.now) f.new }
{
    let name = name_in(message.metadata.op_code, "ZONE", "QUERY");
    write_count(name, message.queries.len(), f)
}

/// Writes the number of answers.
fn write_answers_count<W: fmt::Write>(message: &Message, f: &mut fmt::Formatter<W>) -> fmt::Result
    ensures { WritesOnOk W.write_str_gives f.old result (answers_count message.now) f.new }
{
    let name = name_in(message.metadata.op_code, "PREREQ", "ANSWER");
    write_count(name, message.answers.len(), f)
}

/// Writes the number of authority records.
fn write_authorities_count<W: fmt::Write>(
    message: &Message,
    f: &mut fmt::Formatter<W>,
) -> fmt::Result
    ensures { WritesOnOk W.write_str_gives f.old result (authorities_count message.now) f.new }
{
    let name = name_in(message.metadata.op_code, "UPDATE", "AUTHORITY");
    write_count(name, message.authorities.len(), f)
}

/// Writes the number of additional records, and ends the line.
fn write_additionals_count<W: fmt::Write>(
    message: &Message,
    f: &mut fmt::Formatter<W>,
) -> fmt::Result
    ensures { WritesOnOk W.write_str_gives f.old result (additionals_count message.now) f.new }
{
    let count = additional_count(message);
    writeln!(f, "ADDITIONAL: {count}")
}

/// Returns the number of additional records, the OPT record and the signature among them.
fn additional_count(message: &Message) -> usize
    ensures { result ≡ last_count message.now }
{
    let additionals = message.additionals.as_slice().len();
    let (edns, signature) = (message.edns.is_some(), message.signature.is_some());
    additionals + (usize::from(edns) + usize::from(signature))
}

/// Writes an empty line and the title of a section.
fn write_title<W: fmt::Write>(title: &str, f: &mut fmt::Formatter<W>) -> fmt::Result
    ensures { WritesOnOk W.write_str_gives f.old result (title_lines title.now) f.new }
{
    write!(f, "\n;; {title}:\n")
}

/// Writes the OPT record, if there is one.
fn write_edns<W: fmt::Write>(edns: &Option<Edns>, f: &mut fmt::Formatter<W>) -> fmt::Result
    ensures { WritesOnOk W.write_str_gives f.old result (edns_section edns.now) f.new }
{
    let Some(edns) = edns else {
        return Ok(());
    };
    write_title("OPT PSEUDOSECTION", f)?;
    write_edns_line(edns, f)?;
    write_options(&edns.options, f)
}

/// Writes version, flags and payload size of an OPT record.
fn write_edns_line<W: fmt::Write>(edns: &Edns, f: &mut fmt::Formatter<W>) -> fmt::Result
    ensures { WritesOnOk W.write_str_gives f.old result (edns_line edns.now) f.new }
{
    let (version, max_payload) = (edns.version, edns.max_payload);
    let dnssec_ok = flag(edns.flags.dnssec_ok, " do");
    write!(f, "; EDNS: version: {version}, flags:{dnssec_ok}")?;
    write_reserved(edns.flags.z, f)?;
    writeln!(f, " udp: {max_payload}")
}

/// Writes the reserved flags of an OPT record, if one is set, and the mark that ends the flags.
fn write_reserved<W: fmt::Write>(z: u16, f: &mut fmt::Formatter<W>) -> fmt::Result
    ensures { WritesOnOk W.write_str_gives f.old result (reserved_text z) f.new }
{
    if z == 0 {
        f.write_str(";")
    } else {
        write!(f, "; MBZ: 0x{z:x},")
    }
}

/// Writes a line with options, if there are any.
fn write_options<W: fmt::Write>(options: &OPT, f: &mut fmt::Formatter<W>) -> fmt::Result
    ensures { WritesOnOk W.write_str_gives f.old result (options_line options.now) f.new }
{
    if options.options().is_empty() {
        return Ok(());
    }
    writeln!(f, "; OPT: {options}")
}

/// Writes the four sections.
fn write_sections<W: fmt::Write>(message: &Message, f: &mut fmt::Formatter<W>) -> fmt::Result
    ensures { WritesOnOk W.write_str_gives f.old result (sections_text message.now) f.new }
{
    write_queries(message, f)?;
    write_answers(message, f)?;
    write_authorities(message, f)?;
    write_records("ADDITIONAL SECTION", &message.additionals, f)
}

/// Writes the question section.
fn write_queries<W: fmt::Write>(message: &Message, f: &mut fmt::Formatter<W>) -> fmt::Result
    ensures { WritesOnOk W.write_str_gives f.old result (queries_text message.now) f.new }
{
    let op_code = message.metadata.op_code;
    let title = name_in(op_code, "ZONE SECTION", "QUESTION SECTION");
    write_questions(title, &message.queries, f)
}

/// Writes the answer section.
fn write_answers<W: fmt::Write>(message: &Message, f: &mut fmt::Formatter<W>) -> fmt::Result
    ensures { WritesOnOk W.write_str_gives f.old result (answers_text message.now) f.new }
{
    let op_code = message.metadata.op_code;
    let title = name_in(op_code, "PREREQUISITE SECTION", "ANSWER SECTION");
    write_records(title, &message.answers, f)
}

/// Writes the authority section.
fn write_authorities<W: fmt::Write>(message: &Message, f: &mut fmt::Formatter<W>) -> fmt::Result
    ensures { WritesOnOk W.write_str_gives f.old result (authorities_text message.now) f.new }
{
    let op_code = message.metadata.op_code;
    let title = name_in(op_code, "UPDATE SECTION", "AUTHORITY SECTION");
    write_records(title, &message.authorities, f)
}

/// Writes a section of questions, if there are any.
fn write_questions<W: fmt::Write>(
    title: &str,
    queries: &Sequence<Query>,
    f: &mut fmt::Formatter<W>,
) -> fmt::Result
    ensures { WritesOnOk W.write_str_gives f.old result
        (question_section title.now queries.now) f.new }
{
    if queries.is_empty() {
        return Ok(());
    }
    write_title(title, f)?;
    write_question_lines(queries.as_slice(), f)
}

/// Writes questions, each on a line after a semicolon.
fn write_question_lines<W: fmt::Write>(queries: &[Query], f: &mut fmt::Formatter<W>) -> fmt::Result
    ensures { WritesOnOk W.write_str_gives f.old result (question_lines queries.now) f.new }
{
    for query in queries {
        writeln!(f, ";{query}")?;
    }
    Ok(())
}

/// Writes a section of records, if there are any.
fn write_records<W: fmt::Write>(
    title: &str,
    records: &Sequence<Record>,
    f: &mut fmt::Formatter<W>,
) -> fmt::Result
    ensures { WritesOnOk W.write_str_gives f.old result
        (record_section title.now records.now) f.new }
{
    if records.is_empty() {
        return Ok(());
    }
    write_title(title, f)?;
    write_record_lines(records.as_slice(), f)
}

/// Writes records, each on a line.
fn write_record_lines<W: fmt::Write>(records: &[Record], f: &mut fmt::Formatter<W>) -> fmt::Result
    ensures { WritesOnOk W.write_str_gives f.old result (record_lines records.now) f.new }
{
    for line in records {
        writeln!(f, "{line}")?;
    }
    Ok(())
}

/// Writes the signature, if there is one, as a section of its own.
fn write_signature<W: fmt::Write>(
    signature: &Option<Record>,
    f: &mut fmt::Formatter<W>,
) -> fmt::Result
    ensures { WritesOnOk W.write_str_gives f.old result
        (record_section (codes "TSIG PSEUDOSECTION") (listed signature.now)) f.new }
{
    let Some(line) = signature else {
        return Ok(());
    };
    write_title("TSIG PSEUDOSECTION", f)?;
    writeln!(f, "{line}")
}
