//! The log of requests.

ghost use Rattle.std.specs.Prelude.{◌≡◌, false, OnErr, OnOk};
ghost use Rattle.dns_sockets.specs.Handler.{request_content};
ghost use Rattle.nameserver_handlers.specs.RequestLog.{HasLine, Logs};

use dns_nameserver::{Answered, request_entry};
use dns_sockets::Request;
use std::alloc::AllocError;
use std::io::{Eprint, Write};

/// A writer to which a line is written for each request, such as a file that is opened for appends.
#[derive(Drop)]
pub struct RequestLog<W> {
    writer: W,
    has_failed: bool,
}

impl<W: Write> RequestLog<W> {
    /// Creates a log over a writer.
    pub fn new(writer: W) -> RequestLog<W>
        ensures { result ≡ record { writer = writer; has_failed = false } }
    {
        RequestLog {
            writer,
            has_failed: false,
        }
    }

    /// Writes a line. The first failure is told on standard error, and none stops the server.
    fn append<R: Eprint>(&mut self, rt: &R, line: &str)
        ensures { HasLine W.contents self.old line.now self.new }
    {
        let Err(error) = self.writer.write_all(line.as_bytes()) else {
            return;
        };
        if !self.has_failed {
            self.has_failed = true;
            // A failure to write to standard error can't be reported.
            let _written = eprintln!(rt; "nameserver: cannot write the log: {error}");
        }
    }

    /// Writes the line of a request and of what it led to. Without memory for the line there is none.
    pub fn append_request<R: AllocGlobal + Eprint>(
        &mut self,
        rt: &R,
        request: &Request<'_>,
        answered: &Answered,
    ) -> Result<(), AllocError>
        ensures ok { OnOk result (Logs W.contents self.old (request_content request.now)
            answered.now self.new) }
        ensures err { OnErr result (self.new ≡ self.old) }
    {
        let entry = request_entry(
            rt.alloc(),
            request.moment,
            request.peer,
            request.transport,
            request.bytes,
            answered,
        )?;
        let line = format!(in rt.alloc(); "{entry}\n")?;
        self.append(rt, line.as_str());
        Ok(())
    }
}
