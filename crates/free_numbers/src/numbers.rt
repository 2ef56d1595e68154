//! Numbers, each free or taken.
ghost use Rattle.std.specs.Prelude.{◌≡◌, ◌<◌, true, false, length, set, replicate, IfSome, IfOk};
ghost use Rattle.free_numbers.specs.Free.{lowest_free};

use crate::tree::{new_tree, write_leaf};
use base_words::Memory;
use std::alloc::Global;
use std::marker::Model;

/// The numbers below a bound, each free or taken.
#[derive(Debug, Drop)]
pub struct FreeNumbers {
    // the tree of them
    least: Vec<u32>,
    bound: u32,
}

impl Model for FreeNumbers {
    ghost use Rattle.std.specs.Prelude.{List, Bool, drop};
    ghost use Rattle.free_numbers.specs.Tree.{free_from, IsTree};

    ghost Value = { List Bool };

    ghost view = { λ n. free_from 0 (drop n.bound n.least.items) };

    ghost invariant = { λ n. IsTree n.bound n.least.items };
}

impl FreeNumbers {
    /// The numbers below a bound, all of them free. It takes all of its memory here.
    pub fn new(alloc: Global, bound: u32) -> Result<Self, Memory>
        ensures free { IfOk result (λ numbers. numbers ≡ replicate bound true) }
    {
        let least = new_tree(alloc, bound)?;
        Ok(FreeNumbers { least, bound })
    }

    /// The lowest free number, if one is free.
    pub fn lowest(&self) -> Option<u32>
        ensures value { result ≡ lowest_free self.now }
        ensures within { IfSome result (λ number. number < length self.now) }
    {
        if self.bound == 0 {
            return None;
        }
        let number = self.least[1];
        if number < self.bound {
            Some(number)
        } else {
            None
        }
    }

    /// Takes a number.
    pub fn take(&mut self, number: u32)
        requires within { number < length self.old }
        ensures taken { self.new ≡ set self.old number false }
    {
        write_leaf(&mut self.least, self.bound, number, self.bound);
    }

    /// Gives a number back.
    pub fn give_back(&mut self, number: u32)
        requires within { number < length self.old }
        ensures free { self.new ≡ set self.old number true }
    {
        write_leaf(&mut self.least, self.bound, number, number);
    }
}
