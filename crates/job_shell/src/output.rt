//! A text that a command makes.

ghost use Rattle.std.specs.Prelude.{◌≡◌};

use std::marker::Model;

/// A text that a command makes. Contracts see it as the list of its bytes.
#[derive(Debug, Drop)]
pub struct Output {
    text: Vec<u8>,
}

impl Model for Output {
    ghost use Rattle.std.specs.Prelude.{List, ℕ};

    ghost Value = { List ℕ };

    ghost view = { λ o. o.text.items };
}

impl Output {
    /// This text.
    pub fn from_text(text: Vec<u8>) -> Output
        ensures { result ≡ text.items }
    {
        Output { text }
    }

    /// The text, lent.
    pub(crate) fn text(&self) -> &[u8]
        ensures { result.now ≡ self.now }
    {
        self.text.as_slice()
    }
}
