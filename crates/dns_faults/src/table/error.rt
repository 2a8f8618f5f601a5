//! Why a text is not a table of faults.

ghost use Rattle.std.specs.Prelude.{◌≡◌};

use std::alloc::AllocError;
use thiserror::Error;

/// What is wrong with a line.
#[derive(Clone, Copy, Debug, PartialEq, Eq, Drop, Error)]
pub enum RuleFault {
    /// The name of the rule is not a domain name.
    #[error("the name cannot be read")]
    Name,
    /// There is no type after the name.
    #[error("a type is missing after the name")]
    NoType,
    /// The type is neither `*`, a mnemonic nor `TYPE` and a number.
    #[error("the type cannot be read")]
    Type,
    /// There is no action after the type.
    #[error("an action is missing")]
    NoAction,
    /// A word is not an action.
    #[error("an unknown action")]
    UnknownAction,
    /// The number or the response code after an action, or the number after `times`, is missing.
    #[error("a number or a response code is missing at the end")]
    NoNumber,
    /// A number cannot be read, or is out of its range.
    #[error("a number cannot be read or is out of range")]
    Number,
    /// A response code is neither a name nor a number up to 4095.
    #[error("the response code cannot be read")]
    Code,
    /// An action occurs twice.
    #[error("an action is repeated")]
    Repeated,
    /// `drop` occurs with another action, or `code` with `stale`.
    #[error("actions that exclude one another")]
    Exclusive,
    /// Words follow the number of `times`.
    #[error("surplus words after the number of times")]
    Surplus,
}

/// Why a text is not a table of faults.
#[derive(Clone, Copy, Debug, PartialEq, Eq, Drop, Error)]
pub enum FaultTableError {
    /// A line, counted from 1, is not a rule.
    #[error("line {line}: {fault}")]
    Line {
        /// The line, from 1.
        line: usize,
        /// What is wrong.
        fault: RuleFault,
    },
    /// Memory was refused.
    #[error("out of memory")]
    Memory,
}

impl From<AllocError> for FaultTableError {
    ghost use Rattle.dns_faults.specs.declared.table.error.FaultTableError.TheVariants.{Memory};

    ghost from_gives = { λ _ error. error ≡ Memory };

    fn from(_error: AllocError) -> FaultTableError {
        FaultTableError::Memory
    }
}
