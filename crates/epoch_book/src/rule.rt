//! What is known of the words of a book, and the steps that change it. No value of these types is made.
use atomic_table::{Join, Play, Split, TableRule};
use std::collections::LinkedList;

/// What a ticket stands for: how many passes, and of each the row of numbers that it has added so far, from word 0 on.
pub struct Account {
    pub passes: u64,
    pub rows: LinkedList<LinkedList<u64>>,
}

/// Each word is the sum of what all passes have added to it.
pub struct SumsOfRows;

impl TableRule<(), Account, u16> for SumsOfRows {
    ghost use Rattle.epoch_book.specs.Words.{IsKept, opened};

    ghost holds = { IsKept };

    ghost first = { opened };
}

/// A pass is dealt: a new ticket stands for it, and has added nothing.
pub struct Deals;

impl Split<Account> for Deals {
    ghost use Rattle.epoch_book.specs.Words.{dealt_from, dealt};

    ghost left = { dealt_from };

    ghost right = { λ _. dealt };
}

/// A pass adds its next number.
pub struct Adds;

impl Play<(), Account> for Adds {
    ghost use Rattle.epoch_book.specs.Words.{Added};

    ghost then = { Added };
}

/// A ticket stands for the passes of another too.
pub struct Gathers;

impl Join<Account> for Gathers {
    ghost use Rattle.epoch_book.specs.Words.{gathered, spent};

    ghost both = { gathered };

    ghost spent = { spent };
}
