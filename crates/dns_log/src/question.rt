//! The question of an entry.

ghost use Rattle.std.specs.Prelude.{Some};
ghost use Rattle.dns_log.specs.Entry.{question_or_null, question_text};

use crate::json::JsonText;
use std::fmt;

/// A question as text.
#[derive(Drop)]
pub struct LogQuestion {
    /// The name, with a dot at its end.
    pub name: String,
    /// The type: its mnemonic, or `TYPE` and its number.
    pub record_type: String,
    /// The class: its mnemonic, or `CLASS` and its number.
    pub class: String,
}

impl fmt::Display for LogQuestion {
    ghost output = { λ question. Some (question_text question) };

    /// Writes a JSON object.
    #[tactic(auto, unfolding(crate::specs::Entry::question_text))]
    fn fmt<W: fmt::Write>(&self, f: &mut fmt::Formatter<W>) -> fmt::Result {
        let name = JsonText(self.name.as_bytes());
        let record_type = JsonText(self.record_type.as_bytes());
        let class = JsonText(self.class.as_bytes());
        write!(
            f,
            "{{\"name\":{name},\"type\":{record_type},\"class\":{class}}}"
        )
    }
}

/// A question, or none, which `Display` writes as a JSON object or `null`.
#[derive(Clone, Copy)]
pub(crate) struct QuestionOrNull<'a>(pub(crate) &'a Option<LogQuestion>);

impl<'a> fmt::Display for QuestionOrNull<'a> {
    ghost output = { λ question. Some (question_or_null question.0.now) };

    #[tactic(auto, unfolding(crate::specs::Entry::question_or_null))]
    fn fmt<W: fmt::Write>(&self, f: &mut fmt::Formatter<W>) -> fmt::Result {
        match self.0 {
            Some(question) => write!(f, "{question}"),
            None => f.write_str("null"),
        }
    }
}
