//! Operations that are lent, one after another.
ghost use Rattle.std.specs.Prelude.{◌≡◌, ◌==◌, [], length};
ghost use Rattle.std.specs.Iterator.{YieldsFirst, item_count};
ghost use Rattle.operation_queue.specs.Heads.{AreSpelled, spelled};

use crate::head::Head;
use record_text::OperationRef;
use std::marker::Model;

/// Operations that wait, first come first. Contracts see them as the list of those that are left.
#[derive(Debug, Drop)]
pub struct Operations<'a> {
    heads: &'a [Head],
    bytes: &'a [u8],
}

impl<'a> Model for Operations<'a> {
    ghost use Rattle.std.specs.Prelude.{List};
    ghost use Rattle.record_text.specs.declared.operation.Operation.{Operation};
    ghost use Rattle.operation_queue.specs.Heads.{AreSpelled, spelled};

    ghost Value = { List Operation };

    ghost view = { λ o. spelled o.heads.now o.bytes.now };

    ghost invariant = { λ o. AreSpelled o.heads.now o.bytes.now };
}

impl<'a> Operations<'a> {
    /// The operations of heads whose values stand at the front of the bytes, one after another.
    pub(crate) fn new(heads: &'a [Head], bytes: &'a [u8]) -> Self
        requires spelled { AreSpelled heads.now bytes.now }
        ensures value { result ≡ spelled heads.now bytes.now }
    {
        Operations { heads, bytes }
    }

    /// How many are left.
    #[tactic(auto, using(crate::proofs::HeadLemmas::spelled_length))]
    pub fn len(&self) -> usize
        ensures value { result ≡ length self.now }
    {
        self.heads.len()
    }

    /// Whether none is left.
    #[tactic(auto, using(crate::proofs::HeadLemmas::spelled_length))]
    pub fn is_empty(&self) -> bool
        ensures value { result ≡ (length self.now == 0) }
    {
        self.heads.is_empty()
    }
}

impl<'a> Iterator for Operations<'a> {
    type Item = OperationRef<'a>;

    ghost next_gives = { YieldsFirst (λ operations. operations) };

    ghost remaining = { item_count (λ operations. operations) };

    /// Takes the first.
    fn next(&mut self) -> Option<OperationRef<'a>> {
        let (head, heads) = self.heads.split_first()?;
        let (value, bytes) = self.bytes.split_at(head.value_len());
        self.heads = heads;
        self.bytes = bytes;
        Some(head.with_value(value))
    }
}
