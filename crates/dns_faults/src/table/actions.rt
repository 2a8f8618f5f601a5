//! The actions of a rule, from the words after its type.

ghost use Rattle.std.specs.Prelude.{◌≡◌, ◌≤◌, IfOk, map};
ghost use Rattle.dns_faults.specs.table.Actions.{actions_of, after_close, after_keyword, after_word, begins_with_digit, checked, checked_absent, checked_service, ended, has_others, number_in, start};

use crate::rules::{Fault, Service};
use crate::table::code::parse_code;
use crate::table::error::RuleFault;
use crate::table::keyword::{Keyword, parse_keyword};
use dns_wire::codes::parse_decimal;

/// The longest delay, in milliseconds: an hour.
const MAX_DELAY: u64 = 3_600_000;

/// The greatest number of bytes of garbage.
const MAX_GARBAGE: u64 = 65_535;

/// The greatest number of bytes of a frame: its length, and a message.
const MAX_CLOSE: u64 = 65_537;

/// What the next word may be.
#[derive(Clone, Copy, Debug, PartialEq, Eq)]
pub enum Next {
    /// A keyword.
    Keyword,
    /// The milliseconds of a delay.
    Delay,
    /// A response code.
    Code,
    /// A number of bytes of garbage.
    Garbage,
    /// A number of bytes of a frame, or a keyword.
    Close,
    /// How often the rule decides.
    Times,
    /// Nothing.
    End,
}

/// The actions of the words so far.
#[derive(Clone, Copy, Debug, PartialEq, Eq)]
pub struct Actions {
    /// The actions.
    pub fault: Fault,
    /// How often the rule decides.
    pub times: Option<u32>,
    /// What the next word may be.
    pub next: Next,
}

/// Parses the actions of a rule.
pub fn parse_actions(words: &[&[u8]]) -> Result<Actions, RuleFault>
    ensures { result ≡ actions_of (map (λ word. word.now) words.now) }
{
    let mut actions = Actions::start();
    let mut rest = words;
    while let [word, more @ ..] = rest {
        actions = actions.after_word(word)?;
        rest = more;
    }
    actions.ended()
}

impl Actions {
    /// No action.
    fn start() -> Actions
        ensures { result ≡ start }
    {
        Actions {
            fault: Fault::none(),
            times: None,
            next: Next::Keyword,
        }
    }

    /// Returns the actions with another word.
    fn after_word(self, word: &[u8]) -> Result<Actions, RuleFault>
        ensures { result ≡ after_word self word.now }
    {
        match self.next {
            Next::Keyword => self.after_keyword(word),
            Next::Delay => {
                let delay = parse_number(word, 0, MAX_DELAY)? as u32;
                Ok(self.with_fault(Fault {
                    delay: Some(delay),
                    ..self.fault
                }))
            }
            Next::Code => match parse_code(word) {
                Some(code) => Ok(self.with_fault(Fault {
                    service: Service::Code(code),
                    ..self.fault
                })),
                None => Err(RuleFault::Code),
            },
            Next::Garbage => {
                let len = parse_number(word, 1, MAX_GARBAGE)? as u16;
                Ok(self.with_fault(Fault {
                    garbage: Some(len),
                    ..self.fault
                }))
            }
            Next::Close => self.after_close(word),
            Next::Times => {
                let times = parse_number(word, 1, u64::from(u32::MAX))? as u32;
                Ok(Actions {
                    times: Some(times),
                    next: Next::End,
                    ..self
                })
            }
            Next::End => Err(RuleFault::Surplus),
        }
    }

    /// Returns the actions with a number of bytes after which the connection is closed, or with a keyword.
    fn after_close(self, word: &[u8]) -> Result<Actions, RuleFault>
        ensures { result ≡ after_close self word.now }
    {
        if !begins_with_digit(word) {
            return self.after_keyword(word);
        }
        let place = parse_number(word, 0, MAX_CLOSE)? as u32;
        Ok(self.with_fault(Fault {
            close: Some(place),
            ..self.fault
        }))
    }

    /// Returns these actions with another fault. The next word is a keyword.
    fn with_fault(self, fault: Fault) -> Actions
        ensures { result ≡ record self { fault = fault; next = Next.Keyword } }
    {
        Actions {
            fault,
            next: Next::Keyword,
            ..self
        }
    }

    /// Returns these actions, whose next word is as given.
    fn with_next(self, next: Next) -> Actions
        ensures { result ≡ record self { next = next } }
    {
        Actions { next, ..self }
    }

    /// Returns the actions with a keyword.
    fn after_keyword(self, word: &[u8]) -> Result<Actions, RuleFault>
        ensures { result ≡ after_keyword self word.now }
    {
        let Some(keyword) = parse_keyword(word) else {
            return Err(RuleFault::UnknownAction);
        };
        self.check(keyword)?;
        let fault = self.fault;
        match keyword {
            Keyword::Drop => Ok(self.with_fault(Fault {
                service: Service::Drop,
                ..fault
            })),
            Keyword::Stale => Ok(self.with_fault(Fault {
                service: Service::Stale,
                ..fault
            })),
            Keyword::Truncate => Ok(self.with_fault(Fault {
                truncate: true,
                ..fault
            })),
            Keyword::WrongId => Ok(self.with_fault(Fault {
                wrong_id: true,
                ..fault
            })),
            Keyword::WrongQuestion => Ok(self.with_fault(Fault {
                wrong_question: true,
                ..fault
            })),
            Keyword::Duplicate => Ok(self.with_fault(Fault {
                duplicate: true,
                ..fault
            })),
            Keyword::Close => Ok(
                self.with_fault(Fault {
                    close: Some(0),
                    ..fault
                })
                .with_next(Next::Close),
            ),
            Keyword::Delay => Ok(self.with_next(Next::Delay)),
            Keyword::Code => Ok(self.with_next(Next::Code)),
            Keyword::Garbage => Ok(self.with_next(Next::Garbage)),
            Keyword::Times => Ok(self.with_next(Next::Times)),
        }
    }

    /// Refuses a keyword that repeats an action, or excludes one.
    fn check(self, keyword: Keyword) -> Result<(), RuleFault>
        ensures { result ≡ checked self.fault keyword }
    {
        match keyword {
            Keyword::Drop => check_service(self.fault.service, Service::Drop),
            Keyword::Stale => check_service(self.fault.service, Service::Stale),
            Keyword::Code => check_service(self.fault.service, Service::Code(0)),
            Keyword::Truncate => check_absent(self.fault.truncate),
            Keyword::WrongId => check_absent(self.fault.wrong_id),
            Keyword::WrongQuestion => check_absent(self.fault.wrong_question),
            Keyword::Garbage => check_absent(self.fault.garbage.is_some()),
            Keyword::Duplicate => check_absent(self.fault.duplicate),
            Keyword::Close => check_absent(self.fault.close.is_some()),
            Keyword::Delay => check_absent(self.fault.delay.is_some()),
            Keyword::Times => Ok(()),
        }
    }

    /// Returns the actions at the end of the line.
    fn ended(self) -> Result<Actions, RuleFault>
        ensures { result ≡ ended self }
    {
        match self.next {
            Next::Delay | Next::Code | Next::Garbage | Next::Times => {
                return Err(RuleFault::NoNumber);
            }
            Next::Keyword | Next::Close | Next::End => {}
        }
        if !self.fault.has_action() {
            return Err(RuleFault::NoAction);
        }
        match self.fault.service {
            Service::Drop if has_others(self.fault) => Err(RuleFault::Exclusive),
            _ => Ok(self),
        }
    }
}

/// Parses a number from `least` to `greatest`.
fn parse_number(word: &[u8], least: u64, greatest: u64) -> Result<u64, RuleFault>
    ensures value { result ≡ number_in least greatest word.now }
    ensures bound { IfOk result (λ number. number ≤ greatest) }
{
    match parse_decimal(word, greatest) {
        Some(number) if number >= least => Ok(number),
        _ => Err(RuleFault::Number),
    }
}

/// Returns `true` if a word begins with a digit.
fn begins_with_digit(word: &[u8]) -> bool
    ensures { result ≡ begins_with_digit word.now }
{
    match word {
        [first, ..] => first.is_ascii_digit(),
        [] => false,
    }
}

/// Refuses an action that is already there.
fn check_absent(is_present: bool) -> Result<(), RuleFault>
    ensures { result ≡ checked_absent is_present }
{
    if is_present {
        Err(RuleFault::Repeated)
    } else {
        Ok(())
    }
}

/// Refuses a service beside another one.
fn check_service(present: Service, new: Service) -> Result<(), RuleFault>
    ensures { result ≡ checked_service present new }
{
    match (present, new) {
        (Service::Plain, _) => Ok(()),
        (Service::Drop, Service::Drop)
        | (Service::Stale, Service::Stale)
        | (Service::Code(_), Service::Code(_)) => Err(RuleFault::Repeated),
        _ => Err(RuleFault::Exclusive),
    }
}

/// Returns `true` if there is an action beside the service.
fn has_others(fault: Fault) -> bool
    ensures { result ≡ has_others fault }
{
    let others = Fault {
        service: Service::Plain,
        ..fault
    };
    others.has_action()
}
