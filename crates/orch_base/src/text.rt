//! Texts that contracts see as their bytes.

ghost use Rattle.std.specs.Prelude.{◌≡◌, ◌↔◌, IfOk, IsTrue, nat_eq, string_bytes};
ghost use Rattle.std.specs.Cmp.Lexicographic.{pointwise};

use crate::{Memory, Same};
use std::alloc::Global;
use std::marker::Model;

/// A text, as a cluster's label, which contracts see as the list of its bytes.
pub struct OwnedText {
    text: String,
}

impl Drop for OwnedText {
    fn drop(self) {
        let OwnedText { text: _text } = self;
    }
}

impl Model for OwnedText {
    ghost use Rattle.std.specs.Prelude.{ℕ, List, string_bytes};

    ghost Value = { List ℕ };

    ghost view = { λ l. string_bytes l.text };
}

impl OwnedText {
    /// The label of this text. It takes no memory.
    pub fn new(text: String) -> OwnedText
        ensures { result ≡ string_bytes text }
    {
        OwnedText { text }
    }

    /// The text.
    pub fn as_str(&self) -> &str
        ensures { result.now ≡ self.now }
    {
        &self.text
    }

    /// The same label once more. `Err` means out of memory.
    pub fn copy(&self, alloc: Global) -> Result<OwnedText, Memory>
        ensures { IfOk result (λ l. l ≡ self.now) }
    {
        let text = String::from_str(alloc, self.text.as_str())?;
        Ok(OwnedText { text })
    }

    /// Gives the text back. It takes no memory.
    pub fn into_string(self) -> String
        ensures { string_bytes result ≡ self }
    {
        let OwnedText { text } = self;
        text
    }
}

impl Same for OwnedText {
    fn is_same(&self, other: &OwnedText) -> bool
        ensures same { result ≡ pointwise nat_eq self.now other.now }
        ensures equal { IsTrue result ↔ (self.now ≡ other.now) }
    {
        self.text.as_bytes() == other.text.as_bytes()
    }
}
