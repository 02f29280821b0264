//! The texts of keys and values.

ghost use Rattle.std.specs.Prelude.{◌≡◌, ◌≤◌, length};
ghost use Rattle.dg_workload.specs.Request.{key_text, letter_of, value_text};
ghost use Rattle.dg_workload.specs.declared.texts.TheConstants.{VALUE_BYTES_MAX};

use crate::request::Key;
use itoa::write_digits;
use std::marker::Model;

/// The most bytes of a value: a letter, and the digits of a number of 64 bits.
const VALUE_BYTES_MAX: usize = 21;

/// The text of a value. It is seen as its bytes.
#[derive(Drop)]
pub struct ValueText {
    bytes: [u8; VALUE_BYTES_MAX],
    start: usize,
}

impl Model for ValueText {
    ghost use Rattle.std.specs.Prelude.{◌≤◌, ℕ, List, drop};
    ghost use Rattle.dg_workload.specs.declared.texts.TheConstants.{VALUE_BYTES_MAX};

    ghost Value = { List ℕ };

    ghost view = { λ text. drop text.start text.bytes };

    ghost invariant = { λ text. text.start ≤ VALUE_BYTES_MAX };
}

impl ValueText {
    /// The value of a key by its number: the decimal digits, behind the key's letter where it has one.
    pub fn of(key: Key, number: u64) -> ValueText
        ensures { result ≡ value_text key number }
    {
        let mut bytes = [0; VALUE_BYTES_MAX];
        let start = write_digits(number, &mut bytes, VALUE_BYTES_MAX);
        let Some(letter) = letter(key) else {
            return ValueText { bytes, start };
        };
        bytes[start - 1] = letter;
        ValueText {
            bytes,
            start: start - 1,
        }
    }

    /// The bytes of the text, few enough for a name.
    pub fn as_bytes(&self) -> &[u8]
        ensures bytes { result.now ≡ self.now }
        ensures short { length result.now ≤ VALUE_BYTES_MAX }
    {
        &self.bytes[self.start..]
    }
}

/// The text of a key.
pub fn text_of_key(key: Key) -> &'static [u8]
    ensures text { result.now ≡ key_text key }
    ensures short { length result.now ≤ 4 }
{
    match key {
        Key::Kind => b"kind".as_slice(),
        Key::Weight => b"w".as_slice(),
        Key::Name => b"name".as_slice(),
    }
}

// The letter before the number in the values of a key.
fn letter(key: Key) -> Option<u8>
    ensures { result ≡ letter_of key }
{
    match key {
        Key::Kind => Some(b'v'),
        Key::Weight => None,
        Key::Name => Some(b'n'),
    }
}
