//! The name of a commit: 20 bytes, printed as 40 hex digits.

ghost use Rattle.std.specs.Prelude.{◌≡◌, ◌↔◌, length, IsSome, IfSome, IsTrue};
ghost use Rattle.std.specs.List.{AllPass};
ghost use Rattle.hex.specs.Hex.{decode_of, encode_lower, is_hex_digit, IsBytes};
ghost use Rattle.id_groups.specs.Name.{name_of, SpellsName};

use hex::FromHex;
use std::marker::Model;

/// A commit's name. Contracts see it as the list of its 20 bytes.
#[derive(Clone, Copy, PartialEq, Eq, Debug)]
pub struct Name {
    bytes: [u8; 20],
}

impl Model for Name {
    ghost use Rattle.std.specs.Prelude.{List, ℕ};
    ghost use Rattle.hex.specs.Hex.{IsBytes};

    ghost Value = { List ℕ };

    ghost view = { λ name. name.bytes };

    ghost invariant = { λ name. IsBytes name.bytes };

    ghost inverse = { λ bytes. record { bytes = bytes } };
}

/// The name of 20 zero bytes, which fills the places of a fixed list that hold no name yet.
impl Default for Name {
    ghost use Rattle.std.specs.Prelude.{◌≡◌, replicate};

    ghost is_default = { λ name. name ≡ replicate 20 0 };

    fn default() -> Name {
        Name { bytes: [0; 20] }
    }
}

impl Name {
    /// The name of these bytes.
    pub fn from_bytes(bytes: [u8; 20]) -> Name
        ensures { result ≡ bytes }
    {
        Name { bytes }
    }

    /// The 40 lower-case hex digits of the name.
    pub fn to_hex(&self) -> [u8; 40]
        ensures text { result ≡ encode_lower self.now }
        ensures reads_back { decode_of result ≡ Ok self.now }
    {
        let mut text = [0; 40];
        let _ = hex::encode_to_slice(self.bytes, &mut text);
        text
    }

    /// The name that 40 hex digits of either case spell; `None` exactly where the text isn't 40 hex digits.
    pub fn from_hex(text: &[u8]) -> Option<Name>
        ensures name { result ≡ name_of text.now }
        ensures spelled { IfSome result (λ name. SpellsName text.now name) }
        ensures found { IsSome result ↔ ((length text.now ≡ 40) × AllPass is_hex_digit text.now) }
    {
        match <[u8; 20] as FromHex>::from_hex(text) {
            Ok(bytes) => Some(Name { bytes }),
            Err(_) => None,
        }
    }

    /// Whether the two names are the same.
    pub fn is(&self, other: &Name) -> bool
        ensures { IsTrue result ↔ (self.now ≡ other.now) }
    {
        self.bytes == other.bytes
    }

    /// Lends the name.
    pub fn lend<'a>(&'a self) -> NameRef<'a>
        ensures { result.bytes.now ≡ self.now }
    {
        NameRef { bytes: &self.bytes }
    }
}

/// A name that is lent: 20 bytes that stand somewhere else.
#[derive(Clone, Copy)]
pub struct NameRef<'a> {
    pub bytes: &'a [u8],
    ghost has_20: { length bytes.now ≡ 20 },
    ghost of_bytes: { IsBytes bytes.now },
}

impl<'a> NameRef<'a> {
    /// The name that stands in these 20 bytes.
    pub fn over(bytes: &'a [u8]) -> NameRef<'a>
        requires { length bytes.now ≡ 20 }
        ensures { result.bytes.now ≡ bytes.now }
    {
        NameRef { bytes }
    }

    /// A copy of the name.
    pub fn to_name(self) -> Name
        ensures { result ≡ self.entry.bytes.now }
    {
        let mut bytes = [0; 20];
        bytes.copy_from_slice(self.bytes);
        Name { bytes }
    }
}
