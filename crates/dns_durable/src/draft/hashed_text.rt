//! A text and its SHA-256 digest, which grow together.

ghost use Rattle.std.specs.Prelude.{◌≡◌, ◌++◌, [], IfOk, OnOk, string_bytes};
ghost use Rattle.sha2.specs.Hashers.{Holds256};
ghost use Rattle.sha2.specs.Sha256.{sha256};

use sha2::{Digest, Sha256};
use std::alloc::{AllocError, Global};

/// A text, and the state of its SHA-256 digest.
#[derive(Drop)]
pub(crate) struct HashedText {
    text: String,
    hasher: Sha256,
    ghost hashed: { ∥ Holds256 hasher (string_bytes text) ∥₁ },
}

impl HashedText {
    /// Creates an empty text, for which a number of bytes are reserved.
    pub(crate) fn with_capacity(alloc: Global, capacity: usize) -> Result<HashedText, AllocError>
        ensures { IfOk result (λ text. string_bytes text.text ≡ []) }
    {
        Ok(HashedText {
            text: String::with_capacity(alloc, capacity)?,
            hasher: Sha256::new(),
        })
    }

    /// Returns the text.
    pub(crate) fn as_str(&self) -> &str
        ensures { result.now ≡ string_bytes self.now.text }
    {
        self.text.as_str()
    }

    /// Appends a piece. An error leaves the text as it is.
    pub(crate) fn push_str(&mut self, piece: &str) -> Result<(), AllocError>
        ensures { OnOk result (string_bytes self.new.text
            ≡ string_bytes self.old.text ++ piece.now) }
    {
        self.text.push_str(piece)?;
        self.hasher.update(piece.as_bytes());
        Ok(())
    }

    /// Returns the text and its digest.
    pub(crate) fn finish(self) -> (String, [u8; 32])
        ensures text { result.0 ≡ self.text }
        ensures digest { result.1 ≡ sha256 (string_bytes self.text) }
    {
        let HashedText { text, hasher } = self;
        (text, hasher.finalize())
    }
}
