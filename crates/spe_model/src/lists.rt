//! Texts, bytes and numbers, each seen as a list.

ghost use Rattle.std.specs.Prelude.{◌≡◌, length, string_bytes};

use std::marker::Model;

/// A text in UTF-8, seen as its bytes.
#[derive(Debug, Drop)]
pub struct Text {
    inner: String,
}

impl Model for Text {
    ghost use Rattle.std.specs.Prelude.{ℕ, List, string_bytes};

    ghost Value = { List ℕ };

    ghost view = { λ t. string_bytes t.inner };
}

impl Text {
    /// This text.
    pub fn new(inner: String) -> Text
        ensures { result ≡ string_bytes inner }
    {
        Text { inner }
    }

    /// The text as a string slice.
    pub fn as_str(&self) -> &str
        ensures { result.now ≡ self.now }
    {
        self.inner.as_str()
    }

    /// The bytes of the text.
    pub fn as_slice(&self) -> &[u8]
        ensures { result.now ≡ self.now }
    {
        self.inner.as_bytes()
    }
}

/// Bytes, seen as a list.
#[derive(Debug, Drop)]
pub struct Bytes {
    inner: Vec<u8>,
}

impl Model for Bytes {
    ghost use Rattle.std.specs.Prelude.{ℕ, List};

    ghost Value = { List ℕ };

    ghost view = { λ t. t.inner.items };
}

impl Bytes {
    /// These bytes.
    pub fn new(inner: Vec<u8>) -> Bytes
        ensures { result ≡ inner.items }
    {
        Bytes { inner }
    }

    /// The bytes as a slice.
    pub fn as_slice(&self) -> &[u8]
        ensures { result.now ≡ self.now }
    {
        self.inner.as_slice()
    }

    /// The bytes as a vector.
    pub fn into_vec(self) -> Vec<u8>
        ensures { result.items ≡ self }
    {
        let Bytes { inner } = self;
        inner
    }
}

/// Numbers, seen as a list.
#[derive(Debug, Drop)]
pub struct Numbers {
    inner: Vec<u64>,
}

impl Model for Numbers {
    ghost use Rattle.std.specs.Prelude.{ℕ, List};

    ghost Value = { List ℕ };

    ghost view = { λ t. t.inner.items };
}

impl Numbers {
    /// These numbers.
    pub fn new(inner: Vec<u64>) -> Numbers
        ensures { result ≡ inner.items }
    {
        Numbers { inner }
    }

    /// The numbers as a slice.
    pub fn as_slice(&self) -> &[u64]
        ensures { result.now ≡ self.now }
    {
        self.inner.as_slice()
    }
}

/// Words, seen as a list of texts.
#[derive(Debug, Drop)]
pub struct Words {
    inner: Vec<Text>,
}

impl Model for Words {
    ghost use Rattle.std.specs.Prelude.{ℕ, List};

    ghost Value = { List (List ℕ) };

    ghost view = { λ t. t.inner.items };
}

impl Words {
    ghost use Rattle.std.specs.Prelude.{◌≡◌};

    /// These words.
    pub fn new(inner: Vec<Text>) -> Words
        ensures { result ≡ inner.items }
    {
        Words { inner }
    }

    /// The words as a slice.
    pub fn as_slice(&self) -> &[Text]
        ensures { result.now ≡ self.now }
    {
        self.inner.as_slice()
    }
}

/// Names, seen as a list of texts.
#[derive(Debug, Drop)]
pub struct Names {
    inner: Vec<Text>,
}

impl Model for Names {
    ghost use Rattle.std.specs.Prelude.{ℕ, List};

    ghost Value = { List (List ℕ) };

    ghost view = { λ t. t.inner.items };
}

impl Names {
    ghost use Rattle.std.specs.Prelude.{◌≡◌};

    /// These names.
    pub fn new(inner: Vec<Text>) -> Names
        ensures { result ≡ inner.items }
    {
        Names { inner }
    }

    /// The names as a slice.
    pub fn as_slice(&self) -> &[Text]
        ensures { result.now ≡ self.now }
    {
        self.inner.as_slice()
    }
}
