//! Lookups, and their output.

use crate::update::update_of;
use crate::{Ids, Sockets};
use dns_messages::{Query, ResponseCode};
use dns_names::Name;
use dns_text::parse_ip;
use dns_tsig::signer::TsigError;
use dns_wire::RecordType;
use lookup_cli::answers::{
    Answer, ExitStatus, Item, JsonAnswer, JsonUpdate, PlainAnswer, PlainReason, Question, Status,
    item_of_line,
};
use lookup_cli::{Arguments, Ending, Session, SignedSession, UpdateArguments};
use std::fmt;
use std::time::Instant;
use stub_hosts::Hosts;
use stub_link::UpdateEvent;
use stub_net::signed::UpdateError;
use stub_net_sockets::{RandomIds, Stopwatch, SystemEntropy};

/// The program at work.
#[derive(Drop)]
pub(crate) struct Program<'a> {
    /// The runtime.
    pub(crate) rt: &'a HostRuntime,
    /// The clock.
    pub(crate) clock: Stopwatch<&'a HostRuntime>,
    /// The moment from which events are told.
    pub(crate) start: Instant,
    /// The arguments.
    pub(crate) arguments: &'a Arguments,
    /// The resolver.
    pub(crate) session: Session<Sockets<'a>, Ids<'a>>,
    /// What sends a signed update, if the arguments name a key.
    pub(crate) signed: Option<SignedSession<Sockets<'a>, Ids<'a>>>,
    /// The hosts, to tell what is answered from them.
    pub(crate) hosts: Hosts,
    /// The status so far.
    pub(crate) status: ExitStatus,
}

impl Program<'_> {
    /// Sends the update of the arguments, or looks up their names.
    pub(crate) fn run(&mut self) -> Result<(), Ending> {
        let arguments = self.arguments;
        match &arguments.update {
            Some(update) => self.send_update(update),
            None => self.look_up_all(),
        }
    }

    /// Looks up the names of the arguments, and then those of standard input if it is among them.
    fn look_up_all(&mut self) -> Result<(), Ending> {
        let arguments = self.arguments;
        let has_heading = arguments.reads_input || arguments.items.len() > 1;
        for item in arguments.items.as_slice() {
            let item = Item::new(self.rt.alloc(), item.name.clone()?, item.question);
            self.look_up(item, has_heading)?;
        }
        if arguments.reads_input {
            self.look_up_input()?;
        }
        Ok(())
    }

    /// Looks up the names of standard input.
    fn look_up_input(&mut self) -> Result<(), Ending> {
        for line in self.rt.lines(self.rt.alloc()) {
            let line = match line {
                Ok(line) => line,
                Err(error) => return Err(Ending::CannotReadInput(error)),
            };
            let question = self.arguments.question;
            if let Some(item) = item_of_line(self.rt.alloc(), line.as_str(), question)? {
                self.look_up_line(item)?;
            }
        }
        Ok(())
    }

    /// Looks up what an item of standard input asks.
    fn look_up_line(&mut self, item: Item) -> Result<(), Ending> {
        if self.arguments.reverse {
            return self.look_up(item.reversed(self.rt.alloc())?, true);
        }
        self.look_up(item, true)
    }

    /// Looks up what an item asks, and prints the answer.
    fn look_up(&mut self, item: Item, has_heading: bool) -> Result<(), Ending> {
        let asked = self.session.questions();
        let start = self.clock.milliseconds();
        let outcome = self.session.look_up(&item, start / 1_000);
        let answer = Answer {
            questions: self.session.questions().saturating_sub(asked),
            milliseconds: self.clock.milliseconds().saturating_sub(start),
            item,
            outcome,
        };
        if self.arguments.trace && answer.questions == 0 && answer.status() != Status::Failed {
            self.tell_source(&answer.item);
        }
        self.status.count(answer.status());
        self.print_answer(&answer, has_heading)
    }

    /// Prints an answer.
    fn print_answer(&self, answer: &Answer, has_heading: bool) -> Result<(), Ending> {
        if self.arguments.json {
            return self.print(JsonAnswer(answer));
        }
        self.print(PlainAnswer {
            answer,
            has_heading,
        })?;
        if answer.status() != Status::Found {
            // A failure to write to standard error can't be reported.
            let _written = self.rt.eprint(PlainReason(answer));
        }
        Ok(())
    }

    /// Prints a text at once.
    fn print<D: fmt::Display + Drop>(&self, text: D) -> Result<(), Ending> {
        let text = format!(in self.rt.alloc(); "{text}")?;
        match self.rt.print(text.as_str()) {
            Ok(()) => Ok(()),
            Err(_) => Err(Ending::CannotPrint),
        }
    }

    /// Says on standard error what answered an item for which no request was sent.
    fn tell_source(&self, item: &Item) {
        let moment = self
            .start
            .elapsed(self.rt)
            .map_or(0, |elapsed| elapsed.as_millis());
        let source = if self.is_host(item) {
            "from the hosts"
        } else if parse_ip(item.name.as_str().as_bytes()).is_some() {
            "as an address"
        } else {
            "from the cache"
        };
        // A failure to write to standard error can't be reported.
        let _written = eprintln!(self.rt; "{moment} ms {item} answered {source}");
    }

    /// Returns `true` if the hosts answer an item.
    fn is_host(&self, item: &Item) -> bool {
        match item.question {
            Question::Addresses => {
                self.has_host(item, RecordType::A) || self.has_host(item, RecordType::AAAA)
            }
            Question::Records(record_type) => self.has_host(item, record_type),
            Question::Unknown => false,
        }
    }

    /// Returns `true` if the hosts have records of a type for a name.
    fn has_host(&self, item: &Item, record_type: RecordType) -> bool {
        let Ok(mut name) = Name::from_ascii(self.rt.alloc(), item.name.as_str()) else {
            return false;
        };
        name.set_fqdn(true);
        matches!(
            self.hosts
                .lookup_static_host(&Query::query(name, record_type), 0),
            Ok(Some(_))
        )
    }

    /// Sends an update, and prints what became of it.
    fn send_update(&mut self, arguments: &UpdateArguments) -> Result<(), Ending> {
        let mut ids = RandomIds::new(SystemEntropy::new(self.rt));
        let update = update_of(self.rt.alloc(), arguments, &mut ids)?;
        let start = self.clock.milliseconds();
        let outcome = self.outcome_of(&update);
        let milliseconds = self.clock.milliseconds().saturating_sub(start);
        self.status.count(Status::of_update(&outcome.code));
        if self.arguments.json {
            return self.print(JsonUpdate {
                words: arguments.words.as_str(),
                zone: &arguments.zone,
                outcome: &outcome.code,
                report: outcome.report,
                questions: outcome.questions,
                milliseconds,
            });
        }
        self.print_update(&arguments.zone, &outcome)
    }

    /// Sends an update, signed if the arguments name a key.
    fn outcome_of(&mut self, update: &UpdateEvent) -> Outcome {
        match &mut self.signed {
            Some(signed) => {
                let code = signed.send_update(update);
                Outcome {
                    code,
                    report: signed.error(),
                    questions: signed.questions(),
                }
            }
            None => {
                let code = self.session.send_update(update);
                Outcome {
                    code,
                    report: None,
                    questions: self.session.questions(),
                }
            }
        }
    }

    /// Prints the response code of an update, and says on standard error why there is none, or what its reply reports.
    fn print_update(&self, zone: &Name, outcome: &Outcome) -> Result<(), Ending> {
        // A failure to write to standard error can't be reported.
        let _written = match (&outcome.code, outcome.report) {
            (Err(error), _) => eprintln!(self.rt; "{zone} UPDATE: {error}"),
            (Ok(_), Some(report)) => eprintln!(self.rt; "{zone} UPDATE: {report}"),
            (Ok(_), None) => Ok(()),
        };
        match &outcome.code {
            Ok(code) => self.print(format_args!("{code}\n")),
            Err(_) => Ok(()),
        }
    }
}

/// What became of an update.
#[derive(Drop)]
struct Outcome {
    /// The response code of its reply, or why there is none.
    code: Result<ResponseCode, UpdateError>,
    /// The error of its signature that the reply reports.
    report: Option<TsigError>,
    /// The number of requests that were sent.
    questions: u64,
}
