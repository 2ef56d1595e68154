//! Paths in order, each with where something of its path lies.
//!
//! The marks lie in blocks, all full but the last one. A block is a ring that begins anywhere, so a mark comes
//! in or goes out by moving others of its block, and by turning each block behind that by one.
ghost use Rattle.std.specs.Prelude.{◌≡◌, ◌≢◌, ℕ, ◌+◌, ◌-◌, ◌*◌, ◌/◌, ◌<◌, ◌≤◌, length, IfOk};
ghost use Rattle.path_index.specs.Index.{lies, seen, mark_at, count_of, most_of, IsSound};

use base_words::Memory;
use std::alloc::Global;
use tree_keys::Path;

/// The marks of a block.
const BLOCK: usize = 256;

/// A path, and where something of it lies.
#[derive(Clone, Copy, Debug)]
pub struct Mark {
    pub path: Path,
    pub at: usize,
}

/// Marks in the order of their paths.
#[derive(Debug, Drop)]
pub struct Index {
    // room for marks, block by block
    marks: Vec<Mark>,
    // where the ring of each block begins
    heads: Vec<u8>,
    len: usize,
}

#[tactic(auto, unfolding(crate::specs::Index::mark_at))]
impl Index {
    /// An index of nothing, with room for so many marks. It takes all of its memory here.
    pub fn new(alloc: Global, room: u32) -> Result<Self, Memory>
        ensures empty { IfOk result (λ index. count_of index ≡ 0) }
        ensures room { IfOk result (λ index. room ≤ most_of index) }
        ensures sound { IfOk result IsSound }
    {
        let blocks = room as usize / BLOCK + 1;
        let blank = Mark {
            path: Path::root(),
            at: 0,
        };
        let marks = vec![in alloc; blank; blocks * BLOCK]?;
        let heads = vec![in alloc; 0; blocks]?;
        Ok(Index {
            marks,
            heads,
            len: 0,
        })
    }

    /// The number of marks.
    pub fn len(&self) -> usize
        ensures value { result ≡ count_of self.now }
    {
        self.len
    }

    /// The mark of a rank.
    pub fn mark(&self, rank: usize) -> &Mark
        requires sound { IsSound self.now }
        requires within { rank < count_of self.now }
        ensures value { result.now ≡ mark_at self.now rank }
    {
        &self.marks[lies(&self.heads, rank)]
    }

    /// Takes in a mark at a rank: those from there on have a rank one higher.
    pub fn insert(&mut self, rank: usize, mark: Mark)
        requires sound { IsSound self.old }
        requires rank { rank ≤ count_of self.old }
        requires room { count_of self.old < most_of self.old }
        ensures sound { IsSound self.new }
        ensures count { count_of self.new ≡ count_of self.old + 1 }
        ensures most { most_of self.new ≡ most_of self.old }
        ensures before { (i : ℕ) → i < rank → mark_at self.new i ≡ mark_at self.old i }
        ensures here { mark_at self.new rank ≡ mark }
        ensures behind { (i : ℕ) → rank ≤ i → i < count_of self.old → mark_at self.new (i + 1) ≡ mark_at self.old i }
    {
        let last = (rank / BLOCK * BLOCK + (BLOCK - 1)).min(self.len);
        let carried = read(&self.marks, &self.heads, rank / BLOCK * BLOCK + (BLOCK - 1));
        shift_up(&mut self.marks, &self.heads, rank, last);
        write(&mut self.marks, &self.heads, rank, mark);
        turn_up(
            &mut self.marks,
            &mut self.heads,
            rank / BLOCK + 1,
            self.len / BLOCK + 1,
            carried,
        );
        self.len += 1;
    }

    /// Takes out the mark of a rank: those behind it have a rank one lower.
    pub fn remove(&mut self, rank: usize)
        requires sound { IsSound self.old }
        requires within { rank < count_of self.old }
        ensures sound { IsSound self.new }
        ensures count { count_of self.new + 1 ≡ count_of self.old }
        ensures most { most_of self.new ≡ most_of self.old }
        ensures before { (i : ℕ) → i < rank → mark_at self.new i ≡ mark_at self.old i }
        ensures behind { (i : ℕ) → rank ≤ i → i < count_of self.new → mark_at self.new i ≡ mark_at self.old (i + 1) }
    {
        let left = self.len - 1;
        let last = (rank / BLOCK * BLOCK + (BLOCK - 1)).min(left);
        shift_down(&mut self.marks, &self.heads, rank, last);
        turn_down(
            &mut self.marks,
            &mut self.heads,
            rank / BLOCK + 1,
            left / BLOCK + 1,
        );
        self.len = left;
    }

    /// Says that what a rank's mark leads to lies elsewhere.
    pub fn relocate(&mut self, rank: usize, at: usize)
        requires sound { IsSound self.old }
        requires within { rank < count_of self.old }
        ensures sound { IsSound self.new }
        ensures count { count_of self.new ≡ count_of self.old }
        ensures most { most_of self.new ≡ most_of self.old }
        ensures here { mark_at self.new rank ≡ record { path = (mark_at self.old rank).path; at = at } }
        ensures others { (i : ℕ) → i < count_of self.old → i ≢ rank → mark_at self.new i ≡ mark_at self.old i }
    {
        let path = self.mark(rank).path;
        write(&mut self.marks, &self.heads, rank, Mark { path, at });
    }
}

#[tactic(auto, unfolding(crate::specs::Index::lies))]
// Where the mark of a rank lies: in its block's ring, so far behind its head.
fn lies(heads: &[u8], rank: usize) -> usize
    requires within { rank < length heads.now * 256 }
    ensures value { result ≡ lies heads.now rank }
    ensures within { result < length heads.now * 256 }
{
    let block = rank / BLOCK;
    block * BLOCK + (heads[block] as usize + rank % BLOCK) % BLOCK
}

// The mark that lies at a rank.
fn read(marks: &[Mark], heads: &[u8], rank: usize) -> Mark
    requires blocks { length marks.now ≡ length heads.now * 256 }
    requires within { rank < length marks.now }
    ensures value { result ≡ seen marks.now heads.now rank }
{
    marks[lies(heads, rank)]
}

// Lets a mark lie at a rank.
fn write(marks: &mut [Mark], heads: &[u8], rank: usize, mark: Mark)
    requires blocks { length marks.old ≡ length heads.now * 256 }
    requires within { rank < length marks.old }
    ensures here { seen marks.new heads.now rank ≡ mark }
    ensures others { (i : ℕ) → i ≢ rank → seen marks.new heads.now i ≡ seen marks.old heads.now i }
{
    marks[lies(heads, rank)] = mark;
}

// Moves the marks from a rank up to another one up, over the one there.
fn shift_up(marks: &mut [Mark], heads: &[u8], from: usize, last: usize)
    requires blocks { length marks.old ≡ length heads.now * 256 }
    requires order { from ≤ last }
    requires within { last < length marks.old }
    ensures before { (i : ℕ) → i ≤ from → seen marks.new heads.now i ≡ seen marks.old heads.now i }
    ensures moved { (i : ℕ) → from ≤ i → i < last → seen marks.new heads.now (i + 1) ≡ seen marks.old heads.now i }
    ensures behind { (i : ℕ) → last < i → seen marks.new heads.now i ≡ seen marks.old heads.now i }
{
    for rank in (from..last).rev() {
        let mark = read(marks, heads, rank);
        write(marks, heads, rank + 1, mark);
    }
}

// Moves the marks behind a rank up to another one down, over the one at the rank.
fn shift_down(marks: &mut [Mark], heads: &[u8], from: usize, last: usize)
    requires blocks { length marks.old ≡ length heads.now * 256 }
    requires order { from ≤ last }
    requires within { last < length marks.old }
    ensures before { (i : ℕ) → i < from → seen marks.new heads.now i ≡ seen marks.old heads.now i }
    ensures moved { (i : ℕ) → from ≤ i → i < last → seen marks.new heads.now i ≡ seen marks.old heads.now (i + 1) }
    ensures behind { (i : ℕ) → last ≤ i → seen marks.new heads.now i ≡ seen marks.old heads.now i }
{
    for rank in from..last {
        let mark = read(marks, heads, rank + 1);
        write(marks, heads, rank, mark);
    }
}

// Turns a block up by one, over its last mark, and lets another mark be its first.
fn turn_block_up(marks: &mut [Mark], heads: &mut [u8], block: usize, first: Mark)
    requires blocks { length marks.old ≡ length heads.old * 256 }
    requires within { block < length heads.old }
    ensures first { seen marks.new heads.new (block * 256) ≡ first }
    ensures moved { (i : ℕ) → block * 256 ≤ i → i < block * 256 + 255 → seen marks.new heads.new (i + 1) ≡ seen marks.old heads.old i }
    ensures others { (i : ℕ) → i / 256 ≢ block → seen marks.new heads.new i ≡ seen marks.old heads.old i }
{
    let head = heads[block];
    heads[block] = head.wrapping_sub(1);
    write(marks, heads, block * BLOCK, first);
}

// Turns blocks up by one, from one up to another: each one's last mark becomes the next one's first.
fn turn_up(marks: &mut [Mark], heads: &mut [u8], from: usize, end: usize, mark: Mark)
    requires blocks { length marks.old ≡ length heads.old * 256 }
    requires order { from ≤ end }
    requires within { end ≤ length heads.old }
    ensures before { (i : ℕ) → i < from * 256 → seen marks.new heads.new i ≡ seen marks.old heads.old i }
    ensures first { from < end → seen marks.new heads.new (from * 256) ≡ mark }
    ensures moved { (i : ℕ) → from * 256 ≤ i → i + 1 < end * 256 → seen marks.new heads.new (i + 1) ≡ seen marks.old heads.old i }
{
    let mut carried = mark;
    for block in from..end {
        let last = read(marks, heads, block * BLOCK + (BLOCK - 1));
        turn_block_up(marks, heads, block, carried);
        carried = last;
    }
}

// Turns a block down by one: its first mark becomes the last of the block before.
fn turn_block_down(marks: &mut [Mark], heads: &mut [u8], block: usize)
    requires blocks { length marks.old ≡ length heads.old * 256 }
    requires some { 0 < block }
    requires within { block < length heads.old }
    ensures before { (i : ℕ) → i + 1 < block * 256 → seen marks.new heads.new i ≡ seen marks.old heads.old i }
    ensures moved { (i : ℕ) → block * 256 ≤ i + 1 → i < block * 256 + 255
        → seen marks.new heads.new i ≡ seen marks.old heads.old (i + 1) }
    ensures behind { (i : ℕ) → block * 256 + 256 ≤ i → seen marks.new heads.new i ≡ seen marks.old heads.old i }
{
    let first = read(marks, heads, block * BLOCK);
    write(marks, heads, block * BLOCK - 1, first);
    let head = heads[block];
    heads[block] = head.wrapping_add(1);
}

// Turns blocks down by one, from one up to another: each one's first mark becomes the last of the one before.
fn turn_down(marks: &mut [Mark], heads: &mut [u8], from: usize, end: usize)
    requires blocks { length marks.old ≡ length heads.old * 256 }
    requires some { 0 < from }
    requires order { from ≤ end }
    requires within { end ≤ length heads.old }
    ensures before { (i : ℕ) → i + 1 < from * 256 → seen marks.new heads.new i ≡ seen marks.old heads.old i }
    ensures moved { (i : ℕ) → from * 256 ≤ i + 1 → i + 1 < end * 256 → seen marks.new heads.new i ≡ seen marks.old heads.old (i + 1) }
{
    for block in from..end {
        turn_block_down(marks, heads, block);
    }
}
