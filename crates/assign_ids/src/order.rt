//! The numbers placed so far, each found at once.

ghost use Rattle.std.specs.Prelude.{◌≡◌, ◌<◌, ◌++◌, [], ◌∷◌, IfOk, OnOk, nat_eq};
ghost use Rattle.id_groups.specs.Lists.{is_in};

use std::alloc::{AllocError, Global};
use std::marker::Model;

/// Numbers in the order in which they were placed.
#[derive(Drop)]
pub(crate) struct Order {
    numbers: Vec<u32>,
    is_placed: Vec<bool>,
}

impl Model for Order {
    ghost use Rattle.std.specs.Prelude.{◌≡◌, ◌<◌, ℕ, false, length, nat_eq};
    ghost use Rattle.std.proofs.Math.ListN.{get_or};
    ghost use Rattle.id_groups.specs.Lists.{is_in};
    ghost use Rattle.assign_ids.specs.Progress.{Progress};

    ghost Value = { Progress };

    ghost view = { λ order. record { numbers = order.numbers.items; size = length order.is_placed.items } };

    ghost invariant = { λ order. (k : ℕ) → k < length order.is_placed.items
        → get_or order.is_placed.items k false ≡ is_in nat_eq k order.numbers.items };
}

impl Order {
    /// Nothing is placed yet, and each number below `size` may be.
    pub(crate) fn new(alloc: Global, size: usize) -> Result<Order, AllocError>
        ensures { IfOk result (λ order. order ≡ record { numbers = []; size = size }) }
    {
        Ok(Order {
            numbers: Vec::new(alloc),
            is_placed: vec![in alloc; false; size]?,
        })
    }

    /// Whether the number is placed.
    pub(crate) fn contains(&self, number: u32) -> bool
        requires { number < self.now.size }
        ensures { result ≡ is_in nat_eq number self.now.numbers }
    {
        self.is_placed[number as usize]
    }

    /// Places the number behind all others.
    pub(crate) fn push(&mut self, number: u32) -> Result<(), AllocError>
        requires { number < self.old.size }
        ensures { OnOk result (self.new ≡ record { numbers = self.old.numbers ++ number ∷ []; size = self.old.size }) }
    {
        self.numbers.push(number)?;
        self.is_placed[number as usize] = true;
        Ok(())
    }

    /// All that was placed, in order.
    pub(crate) fn into_numbers(self) -> Vec<u32>
        ensures { result.items ≡ self.numbers }
    {
        self.numbers
    }
}
