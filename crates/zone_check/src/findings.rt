//! What is said of a zone file or a script: the sentences, and the text of a finding.
//!
//! - `finding`: a finding and its text; `format`: how reports are written; `shown`: the characters of a file in a report;
//! - `fault_text`, `word_text`, `value_text`: the sentences of faults; `form_text`: how data is written; `warning_text`: the
//!   sentences of warnings.

mod fault_text;
mod finding;
mod form_text;
mod format;
mod shown;
mod value_text;
mod warning_text;
mod word_text;

pub use fault_text::{advice_on, fault_advice};
pub use finding::{Advice, Finding, Severity, text_at};
pub use format::ReportFormat;
pub use shown::push_shown;
pub use warning_text::warning_advice;
