//! Paths of both trees, of keys of 64 bits and of 128, and how they lie to each other.
ghost use Rattle.std.specs.Prelude.{◌≡◌, ◌+◌, ◌-◌, ◌*◌, ◌/◌, ◌%◌, ◌^◌, ◌<◌, ◌≤◌, ◌==◌, ◌≢◌, ◌↔◌, min, Bool, false, true, List, [], ◌∷◌, ◌++◌, length, take, slice_get, IsTrue, IfSome, IfNone, Some, None};
ghost use Rattle.tree_keys.specs.Bits.{bits_of, bit_value, number_of};
ghost use Rattle.tree_keys.specs.Path.{key_bits, depth, tree_of, IsIn, IsPath, IsData, is_data, IsNodePath, root_of, key_path, key_of, side, IsBelow, is_prefix, same_path, common, word_of, path_in_word};

use std::marker::Model;

/// How many bits the keys of a tree have: a path of so many bits is a data path.
pub fn key_bits(wide: bool) -> u8
    ensures value { result ≡ key_bits wide }
{
    if wide { 128 } else { 64 }
}

/// A path of one of two trees: the bits that lead to it from that tree's root, the first most significant, as many as a key of
/// the tree has at most. Shorter paths come first in their order, those of one length by their tree, then by their bits.
#[derive(Clone, Copy, Debug, PartialEq, Eq, PartialOrd, Ord)]
#[tactic(auto, using(crate::proofs::BitsLaws::path_view))]
pub struct Path {
    len: u8,
    // whether it is of the tree whose keys have 128 bits
    wide: bool,
    // The path's bits as the low bits of a number of 128 bits, those above them 0: its upper half and its lower one. As one
    // field it would align each path, and all that has one, to 16 bytes.
    high: u64,
    low: u64,
}

impl Model for Path {
    ghost use Rattle.std.specs.Prelude.{◌+◌, ◌*◌, ◌≤◌, ◌<◌, ◌^◌, Bool, List, ◌∷◌};
    ghost use Rattle.tree_keys.specs.Bits.{bits_of};
    ghost use Rattle.tree_keys.specs.BitsLaws.{fields_back};
    ghost use Rattle.tree_keys.specs.Path.{key_bits, with_fields};

    ghost Value = { List Bool };

    ghost view = { λ p. p.wide ∷ bits_of p.len (p.high * 2 ^ 64 + p.low) };

    ghost invariant = { λ p. (p.len ≤ key_bits p.wide) × (p.high * 2 ^ 64 + p.low < 2 ^ p.len) × (p.low < 2 ^ 64) };

    ghost inverse = { with_fields (λ len wide high low. record { len = len; wide = wide; high = high; low = low }) };

    ghost inverse_ok = { λ p small. fields_back (λ len wide high low. record { len = len; wide = wide; high = high; low = low }) p.len p.wide p.high p.low small.1 small.2 };
}

#[tactic(auto, using(crate::proofs::BitsLaws::path_view))]
impl Path {
    /// The root of the tree whose keys have 64 bits.
    pub fn root() -> Self
        ensures empty { result ≡ root_of false }
    {
        Self::root_of(false)
    }

    /// The root of a tree, to which no bits lead.
    #[tactic(auto, unfolding(crate::specs::Bits::bits_of))]
    pub fn root_of(wide: bool) -> Self
        ensures empty { result ≡ root_of wide }
    {
        Path {
            len: 0,
            wide,
            high: 0,
            low: 0,
        }
    }

    /// The data path of a key of 64 bits, which lead to it.
    pub fn of_key(key: u64) -> Self
        ensures bits { result ≡ key_path false key }
        ensures whole { IsData result }
    {
        Self::of_number(false, u128::from(key))
    }

    /// The data path of a key of 128 bits, which lead to it.
    pub fn of_wide(key: u128) -> Self
        ensures bits { result ≡ key_path true key }
        ensures whole { IsData result }
    {
        Self::of_number(true, key)
    }

    /// The data path of a key of a tree: of a longer number the lowest bits.
    #[tactic(auto, using(crate::proofs::BitsLaws::number_view))]
    pub fn of_number(wide: bool, key: u128) -> Self
        ensures bits { result ≡ key_path wide key }
        ensures whole { IsData result }
    {
        if wide {
            return Self::of_bits(128, true, key);
        }
        Self::of_bits(64, false, key % (1 << 64))
    }

    // The path of a tree that the low bits of a number lead to, so many of them.
    fn of_bits(len: u8, wide: bool, bits: u128) -> Self
        requires fits { len ≤ key_bits wide }
        requires small { bits < 2 ^ len }
        ensures bits { result ≡ wide ∷ bits_of len bits }
    {
        Path {
            len,
            wide,
            high: (bits >> 64) as u64,
            low: (bits % (1 << 64)) as u64,
        }
    }

    /// The number that the bits that lead to it spell: 0 for a root.
    pub fn bits(&self) -> u128
        ensures value { result ≡ key_of self.now }
        ensures small { result < 2 ^ depth self.now }
    {
        u128::from(self.high) * (1 << 64) + u128::from(self.low)
    }

    /// How many bits lead to it from the root of its tree.
    pub fn len(&self) -> u8
        ensures value { result ≡ depth self.now }
        ensures fits { result ≤ 128 }
        ensures path { IsPath self.now }
    {
        self.len
    }

    /// Whether it is of the tree whose keys have 128 bits.
    pub fn is_wide(&self) -> bool
        ensures value { result ≡ tree_of self.now }
        ensures within { IsIn result self.now }
    {
        self.wide
    }

    /// Whether all bits of a key lead to it.
    pub fn is_data(&self) -> bool
        ensures value { result ≡ is_data self.now }
        ensures whole { result ≡ true → IsData self.now }
        ensures node { result ≡ false → IsNodePath self.now }
    {
        self.len == key_bits(self.wide)
    }

    /// The key of a data path. A shorter path has none.
    pub fn key(&self) -> Option<u128>
        ensures node { IfNone result (IsNodePath self.now) }
        ensures spelled { IfSome result (λ key. self.now ≡ key_path (tree_of self.now) key) }
        ensures small { IfSome result (λ key. key < 2 ^ key_bits (tree_of self.now)) }
    {
        if self.len == key_bits(self.wide) {
            Some(self.bits())
        } else {
            None
        }
    }

    /// The path one bit longer on this side.
    #[tactic(auto, using(crate::proofs::BitsLaws::child_view))]
    pub fn child(&self, side: bool) -> Self
        requires short { IsNodePath self.now }
        ensures appended { result ≡ self.now ++ side ∷ [] }
    {
        let bits = with_digit(self.bits(), self.len, side);
        Self::of_bits(self.len + 1, self.wide, bits)
    }

    /// The path that the first bits lead to, so many of them.
    #[tactic(auto, using(crate::proofs::BitsLaws::front_view))]
    pub fn front(&self, len: u8) -> Self
        requires within { len ≤ depth self.now }
        ensures bits { result ≡ take (1 + len) self.now }
    {
        let bits = first_bits(self.bits(), self.len, len);
        Self::of_bits(len, self.wide, bits)
    }

    /// The bit at this place of those that lead to it, counted from 0.
    #[tactic(auto, using(crate::proofs::BitsLaws::bit_view))]
    pub fn bit(&self, index: u8) -> bool
        requires within { index < depth self.now }
        ensures value { slice_get self.now (1 + index) ≡ Some result }
    {
        (self.bits() >> (self.len - 1 - index)) % 2 == 1
    }

    /// The side of this path on which the other lies properly below it, or none where it doesn't.
    #[tactic(auto, using(crate::proofs::PathLaws::side_view))]
    pub fn side(&self, other: &Path) -> Option<bool>
        ensures value { result ≡ side self.now other.now }
    {
        if other.len <= self.len {
            return None;
        }
        if other.wide != self.wide {
            return None;
        }
        if first_bits(other.bits(), other.len, self.len) != self.bits() {
            return None;
        }
        Some(other.bit(self.len))
    }

    /// Whether this path lies properly below the other: the other is a proper prefix of it.
    pub fn is_below(&self, other: &Path) -> bool
        ensures prefix { IsTrue result ↔ IsBelow other.now self.now }
    {
        other.side(self).is_some()
    }

    /// The side of the other path on which this one lies below it.
    pub fn side_below(&self, other: &Path) -> bool
        requires below { IsBelow other.now self.now }
        ensures value { side other.now self.now ≡ Some result }
    {
        other.side(self).unwrap()
    }

    /// Whether this path begins with the other, or is the other.
    #[tactic(auto, using(crate::proofs::PathLaws::prefix_view))]
    pub fn starts_with(&self, other: &Path) -> bool
        ensures value { result ≡ is_prefix other.now self.now }
    {
        if other.len > self.len {
            return false;
        }
        if other.wide != self.wide {
            return false;
        }
        first_bits(self.bits(), self.len, other.len) == other.bits()
    }

    /// Whether both are the same path.
    #[tactic(auto, using(crate::proofs::PathLaws::same_view))]
    pub fn is_same(&self, other: &Path) -> bool
        ensures value { result ≡ same_path self.now other.now }
        ensures same { IsTrue result ↔ (self.now ≡ other.now) }
    {
        if self.len != other.len {
            return false;
        }
        if self.wide != other.wide {
            return false;
        }
        self.bits() == other.bits()
    }

    /// The longest path that both begin with, which paths of two trees haven't.
    #[tactic(auto, using(crate::proofs::CommonLemmas::common_view))]
    pub fn common(&self, other: &Path) -> Self
        requires one_tree { tree_of self.now ≡ tree_of other.now }
        ensures prefix { result ≡ common self.now other.now }
    {
        let within = self.len.min(other.len);
        let own = first_bits(self.bits(), self.len, within);
        let others = first_bits(other.bits(), other.len, within);
        let shared = shared_bits(within, own, others);
        self.front(shared)
    }

    /// The path in a word of as many bits as the keys of its tree have: those that lead to it come first, the unused are 0.
    #[tactic(auto, using(crate::proofs::WordLemmas::word_view))]
    pub fn word(&self) -> u128
        ensures value { result ≡ word_of self.now }
    {
        if self.len == 0 {
            return 0;
        }
        self.bits() << (key_bits(self.wide) - self.len)
    }

    /// The path of a tree that the first bits of a word lead to, so many of them: of the tree whose keys have 64 bits it is in
    /// the word's low half. There is none past the bits of a key, and none where an unused bit isn't 0.
    #[tactic(auto, using(crate::proofs::WordLemmas::of_word_view))]
    pub fn of_word(wide: bool, len: u8, word: u128) -> Option<Self>
        ensures value { result ≡ path_in_word wide len word }
    {
        if len > key_bits(wide) {
            return None;
        }
        let word = own_bits(wide, word);
        let bits = first_bits(word, key_bits(wide), len);
        let path = Self::of_bits(len, wide, bits);
        if path.word() == word {
            Some(path)
        } else {
            None
        }
    }
}

// The bits of a word that are those of a tree's.
fn own_bits(wide: bool, word: u128) -> u128
    ensures value { result ≡ word % 2 ^ key_bits wide }
{
    if wide { word } else { word % (1 << 64) }
}

// How many first bits two numbers of so many bits share.
#[tactic(auto, using(crate::proofs::CommonLemmas::shared_view))]
fn shared_bits(count: u8, first: u128, second: u128) -> u8
    requires fits { count ≤ 128 }
    requires first_small { first < 2 ^ count }
    requires second_small { second < 2 ^ count }
    ensures within { result ≤ count }
    ensures same { first / 2 ^ (count - result) ≡ second / 2 ^ (count - result) }
    ensures apart { result < count → first / 2 ^ (count - result - 1) % 2 ≢ second / 2 ^ (count - result - 1) % 2 }
{
    let unlike = (first ^ second).leading_zeros() as u8;
    unlike - (128 - count)
}

// A number with one bit more at its end.
fn with_digit(bits: u128, len: u8, bit: bool) -> u128
    requires short { len < 128 }
    requires small { bits < 2 ^ len }
    ensures value { result ≡ 2 * bits + bit_value bit }
    ensures below { result < 2 ^ (len + 1) }
{
    2 * bits + if bit { 1 } else { 0 }
}

// The first bits of a path, given and asked for by numbers of bits.
fn first_bits(bits: u128, len: u8, front: u8) -> u128
    requires fits { len ≤ 128 }
    requires within { front ≤ len }
    requires small { bits < 2 ^ len }
    ensures value { result ≡ bits / 2 ^ (len - front) }
    ensures below { result < 2 ^ front }
{
    if front == 0 { 0 } else { bits >> (len - front) }
}
