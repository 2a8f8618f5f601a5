//! Scripts whose expectations are what their events printed.

ghost use Rattle.std.specs.Prelude.{◌++◌, OnOk, flat_map, map};
ghost use Rattle.std.specs.Io.KnownBytes.{Appends};
ghost use Rattle.std.specs.Str.Lines.{lines};
ghost use Rattle.script_expectations.specs.Bless.{blessed_text, expectation, line_text};
ghost use Rattle.script_expectations.specs.Line.{texts};

use crate::line::{is_event, is_expectation, lines_of};
use crate::printed::event_len;
use std::alloc::Global;
use std::io;

/// Writes a script in which each event is followed by its expectations: what it printed. All other expectations are left out,
/// and all other lines stay as they are, with a line feed at their ends.
pub fn write_blessed<W: io::Write>(
    alloc: Global,
    script: &str,
    printed: &str,
    writer: &mut W,
) -> io::Result<()>
    ensures { OnOk result (Appends (W.contents writer.old) (W.contents writer.new)
        (blessed_text (lines script.now) (lines printed.now))) }
{
    let script = lines_of(alloc, script)?;
    let printed = lines_of(alloc, printed)?;
    write_lines(script.as_slice(), printed.as_slice(), writer)
}

/// Writes the lines of a script with the expectations of an output's lines.
fn write_lines<W: io::Write>(script: &[&[u8]], printed: &[&[u8]], writer: &mut W) -> io::Result<()>
    ensures { OnOk result (Appends (W.contents writer.old) (W.contents writer.new)
        (blessed_text (texts script.now) (texts printed.now))) }
{
    let mut done = 0;
    for line in script {
        if is_event(line) {
            let rest = printed.split_at(done);
            let len = event_len(rest.1);
            let shown = rest.1.split_at(len);
            write_event(line, shown.0, writer)?;
            done += len;
            continue;
        }
        if is_expectation(line) {
            continue;
        }
        write_line(line, writer)?;
    }
    Ok(())
}

/// Writes the line of an event, and the expectations of the lines that it printed.
fn write_event<W: io::Write>(line: &[u8], printed: &[&[u8]], writer: &mut W) -> io::Result<()>
    ensures { OnOk result (Appends (W.contents writer.old) (W.contents writer.new)
        (line_text line.now ++ flat_map line_text (map expectation (texts printed.now)))) }
{
    write_line(line, writer)?;
    write_expectations(printed, writer)
}

/// Writes the expectations of lines.
fn write_expectations<W: io::Write>(lines: &[&[u8]], writer: &mut W) -> io::Result<()>
    ensures { OnOk result (Appends (W.contents writer.old) (W.contents writer.new)
        (flat_map line_text (map expectation (texts lines.now)))) }
{
    for line in lines {
        write_expectation(line, writer)?;
    }
    Ok(())
}

/// Writes the expectation of a line.
fn write_expectation<W: io::Write>(line: &[u8], writer: &mut W) -> io::Result<()>
    ensures { OnOk result (Appends (W.contents writer.old) (W.contents writer.new)
        (line_text (expectation line.now))) }
{
    writer.write_all(b"#> ")?;
    write_line(line, writer)
}

/// Writes a line.
fn write_line<W: io::Write>(line: &[u8], writer: &mut W) -> io::Result<()>
    ensures { OnOk result (Appends (W.contents writer.old) (W.contents writer.new)
        (line_text line.now)) }
{
    writer.write_all(line)?;
    writer.write_all(b"\n")
}
