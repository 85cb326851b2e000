//! The names of labels.

ghost use Rattle.std.specs.Prelude.{◌≡◌, ◌≤◌, ℕ, List, length, Some, None, if◌then◌else◌};
ghost use Rattle.rv_asm.specs.Cuts.{is_name as is_name_of};

use crate::cuts::is_name;
use arrayvec::ArrayVec;
use std::marker::Model;

/// The name of a label: 1 to 32 letters, digits, `_` and `.`, and the first is no digit.
#[derive(Drop)]
pub(crate) struct Name {
    bytes: ArrayVec<u8, 32>,
}

impl Model for Name {
    ghost Value = { List ℕ };

    ghost view = { λ name. name.bytes.items };

    ghost inverse = { λ items. record { bytes = record { items = items } } };
}

impl Name {
    /// Returns the name with this text, if the text is a name.
    #[tactic(auto, unfolding(crate::specs::Cuts::is_name))]
    pub(crate) fn new(text: &[u8]) -> Option<Name>
        ensures { result ≡ (if is_name_of text.now then Some text.now else None) }
    {
        if !is_name(text) {
            return None;
        }
        let bytes = ArrayVec::try_from(text).ok()?;
        Some(Name { bytes })
    }

    /// Returns the bytes of the name, in ASCII.
    pub(crate) fn bytes(&self) -> &ArrayVec<u8, 32>
        ensures { result.now.items ≡ self.now }
    {
        &self.bytes
    }

    /// Returns the bytes of the name, in ASCII.
    pub(crate) fn into_bytes(self) -> ArrayVec<u8, 32>
        ensures { result.items ≡ self }
    {
        self.bytes
    }
}
