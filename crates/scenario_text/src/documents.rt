//! Documents whose values are of their types.
ghost use Rattle.std.specs.Prelude.{◌≡◌};

use std::marker::Model;

/// A text of a document. Contracts see its bytes.
#[derive(Drop)]
pub(crate) struct Text {
    pub(crate) text: String,
}

impl Model for Text {
    ghost use Rattle.std.specs.Prelude.{ℕ, List, string_bytes};

    ghost Value = { List ℕ };

    ghost view = { λ t. string_bytes t.text };
}

impl Text {
    /// Its bytes.
    pub(crate) fn as_bytes(&self) -> &[u8]
        ensures { result.now ≡ self.now }
    {
        self.text.as_bytes()
    }
}

/// Numbers of a document. Contracts see the list of them.
#[derive(Drop)]
pub(crate) struct Numbers {
    pub(crate) numbers: Vec<u64>,
}

impl Model for Numbers {
    ghost use Rattle.std.specs.Prelude.{ℕ, List};

    ghost Value = { List ℕ };

    ghost view = { λ n. n.numbers.items };
}

impl Numbers {
    /// The numbers in their order.
    pub(crate) fn as_slice(&self) -> &[u64]
        ensures { result.now ≡ self.now }
    {
        self.numbers.as_slice()
    }
}

/// An announcement of a document.
#[derive(Drop)]
pub(crate) struct AnnouncementText {
    pub(crate) prefix: Text,
    pub(crate) number: u64,
    pub(crate) path: Numbers,
}

/// A policy of a document.
#[derive(Drop)]
pub(crate) struct PolicyText {
    pub(crate) number: u64,
    pub(crate) policy: Text,
}

/// A document whose values are of their types. Contracts see its four lists.
#[derive(Drop)]
pub(crate) struct Document {
    pub(crate) announcements: Vec<AnnouncementText>,
    pub(crate) policies: Vec<PolicyText>,
    pub(crate) leaks: Vec<Numbers>,
    pub(crate) watch: Vec<Text>,
}

impl Model for Document {
    ghost use Rattle.scenario_text.specs.Documents.{DocumentValue};

    ghost Value = { DocumentValue };

    ghost view = { λ d. record { announcements = d.announcements.items; policies = d.policies.items; leaks = d.leaks.items; watch = d.watch.items } };
}
