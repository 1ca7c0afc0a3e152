//! Ids: a master commit's number, or 2^56 and the place of another one.

ghost use Rattle.std.specs.Prelude.{◌≡◌, ◌<◌, ◌+◌, ◌^◌};
ghost use Rattle.std.specs.Ordering.{nat_cmp};
ghost use Rattle.id_groups.specs.Id.{group_of, place_of, id_text, other_id, id_end};

use std::cmp::Ordering;
use std::marker::Model;

/// The number of the first id of the group of others.
pub const FIRST_OTHER: u64 = 1 << 56;

/// All ids have numbers below this one.
pub const ID_END: u64 = 1 << 57;

/// The two groups of ids.
#[derive(Clone, Copy, PartialEq, Eq, Debug)]
pub enum Group {
    /// The ancestors of master heads.
    Master,
    /// The rest, whose ids may be given anew.
    Others,
}

/// A commit's id. Contracts see it as its number.
#[derive(Clone, Copy, PartialEq, Eq, PartialOrd, Ord, Debug)]
pub struct Id {
    number: u64,
}

impl Model for Id {
    ghost use Rattle.std.specs.Prelude.{ℕ, ◌<◌, ◌^◌};

    ghost Value = { ℕ };

    ghost view = { λ id. id.number };

    ghost invariant = { λ id. id.number < 2 ^ 57 };

    ghost inverse = { λ number. record { number = number } };
}

impl Id {
    /// The id of the master commit at place `n`.
    pub fn master(n: u64) -> Id
        requires { n < 2 ^ 56 }
        ensures { result ≡ n }
    {
        Id { number: n }
    }

    /// The id of the other commit at place `n`.
    pub fn other(n: u64) -> Id
        requires { n < 2 ^ 56 }
        ensures { result ≡ other_id n }
    {
        Id {
            number: FIRST_OTHER + n,
        }
    }

    /// The id with this number.
    pub fn from_number(number: u64) -> Id
        requires { number < 2 ^ 57 }
        ensures { result ≡ number }
    {
        Id { number }
    }

    /// The number of the id, by which ids are ordered.
    pub fn number(self) -> u64
        ensures number { result ≡ self }
        ensures small { result < id_end }
    {
        self.number
    }

    /// The group of the id.
    pub fn group(self) -> Group
        ensures { result ≡ group_of self }
    {
        if self.number < FIRST_OTHER {
            Group::Master
        } else {
            Group::Others
        }
    }

    /// The place in the group.
    pub fn place(self) -> u64
        ensures place { result ≡ place_of self }
        ensures small { result < 2 ^ 56 }
    {
        if self.number < FIRST_OTHER {
            self.number
        } else {
            self.number - FIRST_OTHER
        }
    }

    /// How the id stands to another: ids are ordered as numbers, every master id below every other one.
    pub fn compare(self, other: Id) -> Ordering
        ensures { result ≡ nat_cmp self other }
    {
        self.cmp(&other)
    }

    /// Lends the printed id: its decimal for the master group, `N` and the decimal of its place for the others.
    pub fn print<'a>(self, out: &'a mut [u8; 24]) -> &'a [u8]
        ensures { result.now ≡ id_text self }
    {
        let digits = itoa::write_digits(self.place(), out, 24);
        match self.group() {
            Group::Master => &out[digits..],
            Group::Others => {
                out[digits - 1] = b'N';
                &out[digits - 1..]
            }
        }
    }
}
