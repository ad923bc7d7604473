//! Sets of indices.
ghost use Rattle.std.specs.Prelude.{◌≡◌, ℕ, ◌+◌, ◌-◌, ◌*◌, ◌/◌, ◌%◌, ◌^◌, ◌<◌, ◌≤◌, ◌↔◌, Bool, true, cond, not, ◌==◌, IsTrue, OnOk, OnErr, IfOk, IfErr, IfSome, MatchOption, IsOk, [], ◌∷◌, length, slice_index};
ghost use Rattle.std.specs.Int.{bit_at};
ghost use Rattle.std.specs.FinSet as set;
ghost use Rattle.hibits.specs.Sets.{HasRoom, has_part};
ghost use Rattle.hibits.specs.Left.{left};
ghost use Rattle.hibits.specs.Members.{HasNone, IsAdded, IsRemoved};
ghost use Rattle.hibits.specs.Walks.{IsNext};
ghost use Rattle.hibits.specs.Rows.{row_bit, IsPut};

use crate::bit_iter::BitIter;
use crate::error::SetError;
use crate::layers::{BitSetLike, Layers};
use crate::limits::{INDEX_LIMIT, Index, LAYERS};
use crate::lowest::{Lowest, bit_of_lowest, covers_lowest, make_page, ones_of_lowest, put_lowest};
use crate::reads::Reads;
use crate::rows::{grow, update_above, wipe, word_at};
use pages::PagedRow;
use std::alloc::Global;
use std::marker::Model;

/// A set of indices below `INDEX_LIMIT`, in five layers of words. Ports `hibitset::BitSet`.
///
/// Room comes in blocks of 4096 indices, and memory for the words of a block is taken with its room. An index with room is added without memory,
/// and room stays.
pub struct BitSet {
    layer0: Lowest,
    layer1: Vec<u64>,
    layer2: Vec<u64>,
    layer3: Vec<u64>,
    top: u64,
}

impl Drop for BitSet {
    fn drop(self) {
        let BitSet {
            layer0: _layer0,
            layer1: _layer1,
            layer2: _layer2,
            layer3: _layer3,
            top: _top,
        } = self;
    }
}

impl Model for BitSet {
    ghost use Rattle.std.specs.Prelude.{[], ◌∷◌};
    ghost use Rattle.hibits.specs.Sets.{Layered, layered_code};

    ghost Value = { Layered };

    ghost coded = { layered_code };

    ghost use Rattle.hibits.specs.Rows.{members_of, IsKept};

    ghost view = { λ a. record { members = members_of a.layer0.items; room = a.layer0.pages } };

    ghost invariant = { λ a. IsKept a.layer0.items a.layer0.pages a.layer1.items a.layer2.items a.layer3.items (a.top ∷ []) };
}

impl BitSet {
    /// The empty set, without room. Ports `hibitset::BitSet::new`.
    pub fn new(alloc: Global) -> Self
        ensures members { result.members ≡ set.empty }
        ensures none { HasNone result.members }
        ensures room { result.room ≡ set.empty }
    {
        BitSet {
            layer0: PagedRow::new(alloc),
            layer1: Vec::new(alloc),
            layer2: Vec::new(alloc),
            layer3: Vec::new(alloc),
            top: 0,
        }
    }

    /// The empty set with room for each index below `max`, and no block that begins later. `max` itself may be `INDEX_LIMIT`,
    /// and 0 takes no memory. Ports `hibitset::BitSet::with_capacity`.
    pub fn with_capacity(alloc: Global, max: Index) -> Result<Self, SetError>
        ensures members { IfOk result (λ s. s.members ≡ set.empty) }
        ensures room { IfOk result (λ s. (i : ℕ) → i < max → HasRoom s i) }
        ensures no_further { IfOk result (λ s. (i : ℕ) → HasRoom s i → i / 4096 * 4096 < max) }
        ensures limit { (result ≡ Err SetError.IndexLimit) ↔ (INDEX_LIMIT < max) }
        ensures nothing { max ≡ 0 → IsOk result }
    {
        if max > INDEX_LIMIT {
            return Err(SetError::IndexLimit);
        }
        let mut empty = BitSet::new(alloc);
        for block in 0..(max + 4095) / 4096 {
            empty.make_room(4096 * block)?;
        }
        Ok(empty)
    }

    /// Gets room for the block of an index, and for no other: after it is Ok, each later `add` of this index is Ok.
    #[inline(always)]
    #[tactic(auto, using(crate::proofs::PageLemmas::grown_already))]
    pub fn reserve_for(&mut self, id: Index) -> Result<(), SetError>
        ensures members { self.new.members ≡ self.old.members }
        ensures ok { OnOk result (HasRoom self.new id × id < INDEX_LIMIT) }
        ensures err { OnErr result (self.new ≡ self.old) }
        ensures limit { (result ≡ Err SetError.IndexLimit) ↔ (INDEX_LIMIT ≤ id) }
        ensures room { (i : ℕ) → HasRoom self.old i → HasRoom self.new i }
        ensures no_further { (i : ℕ) → id / 4096 < i / 4096 → HasRoom self.new i → HasRoom self.old i }
        ensures blocks { OnOk result (self.new.room ≡ set.insert self.old.room (id / 4096)) }
        ensures had_room { HasRoom self.old id → IsOk result }
        ensures kept { HasRoom self.old id → self.new ≡ self.old }
    {
        if self.has_room(id) {
            return Ok(());
        }
        if id >= INDEX_LIMIT {
            return Err(SetError::IndexLimit);
        }
        self.make_room(id)
    }

    #[inline(always)]
    fn has_room(&self, id: Index) -> bool
        ensures value { result ≡ set.contains self.now.room (id / 4096) }
        ensures limit { result ≡ true → id < INDEX_LIMIT }
    {
        self.layer0.has_page(id / 64)
    }

    #[inline(never)]
    fn make_room(&mut self, id: Index) -> Result<(), SetError>
        requires { id < INDEX_LIMIT }
        ensures members { self.new.members ≡ self.old.members }
        ensures ok { OnOk result (HasRoom self.new id) }
        ensures err { OnErr result (self.new ≡ self.old) }
        ensures error { IfErr result (λ e. e ≡ SetError.OutOfMemory) }
        ensures room { (i : ℕ) → HasRoom self.old i → HasRoom self.new i }
        ensures no_further { (i : ℕ) → id / 4096 < i / 4096 → HasRoom self.new i → HasRoom self.old i }
        ensures blocks { OnOk result (self.new.room ≡ set.insert self.old.room (id / 4096)) }
    {
        grow(&mut self.layer3, (id / 16_777_216) as usize + 1)?;
        grow(&mut self.layer2, (id / 262144) as usize + 1)?;
        grow(&mut self.layer1, (id / 4096) as usize + 1)?;
        make_page(&mut self.layer0, id)?;
        Ok(())
    }

    /// Adds an index, and says whether it was there. Ports `hibitset::BitSet::add`.
    #[inline(always)]
    #[tactic(auto, using(crate::proofs::PageLemmas::grown_already))]
    pub fn add(&mut self, id: Index) -> Result<bool, SetError>
        ensures was { IfOk result (λ was. was ≡ set.contains self.old.members id) }
        ensures members { OnOk result (self.new.members ≡ set.insert self.old.members id) }
        ensures added { OnOk result (IsAdded self.old.members id self.new.members) }
        ensures ok { OnOk result (HasRoom self.new id × id < INDEX_LIMIT) }
        ensures err { OnErr result (self.new ≡ self.old) }
        ensures limit { (result ≡ Err SetError.IndexLimit) ↔ (INDEX_LIMIT ≤ id) }
        ensures room { (i : ℕ) → HasRoom self.old i → HasRoom self.new i }
        ensures no_further { (i : ℕ) → id / 4096 < i / 4096 → HasRoom self.new i → HasRoom self.old i }
        ensures blocks { OnOk result (self.new.room ≡ set.insert self.old.room (id / 4096)) }
        ensures had_room { HasRoom self.old id → IsOk result }
        ensures kept { HasRoom self.old id → self.new.room ≡ self.old.room }
    {
        if !self.has_room(id) {
            self.reserve_for(id)?;
        }
        Ok(self.put(id, true))
    }

    /// Takes an index out, and says whether it was there. Its room stays. Ports `hibitset::BitSet::remove`.
    #[inline(always)]
    #[tactic(auto, using(crate::proofs::MemberLemmas::is_removed))]
    pub fn remove(&mut self, id: Index) -> bool
        ensures was { result ≡ set.contains self.old.members id }
        ensures members { self.new.members ≡ set.remove self.old.members id }
        ensures removed { IsRemoved self.old.members id self.new.members }
        ensures room { self.new.room ≡ self.old.room }
    {
        if !self.contains(id) {
            return false;
        }
        self.put(id, false)
    }

    /// Puts an index in or out, and says whether it was in.
    #[inline(always)]
    fn put(&mut self, id: Index, value: bool) -> bool
        requires { HasRoom self.old id }
        ensures was { result ≡ set.contains self.old.members id }
        ensures members { self.new.members ≡ cond value (set.insert self.old.members id) (set.remove self.old.members id) }
        ensures room { self.new.room ≡ self.old.room }
    {
        let word = self.layer0.get_present(id / 64);
        let was = (word >> (id % 64)) & 1 == 1;
        let some = put_lowest(&mut self.layer0, id, value);
        if some != (word != 0) {
            update_above(
                &mut self.layer1,
                &mut self.layer2,
                &mut self.layer3,
                &mut self.top,
                id,
                some,
            );
        }
        was
    }

    /// Whether an index is a member. Ports `hibitset::BitSet::contains`.
    #[inline(always)]
    pub fn contains(&self, id: Index) -> bool
        ensures value { result ≡ set.contains self.now.members id }
        ensures members_have_room { (i : ℕ) → set.contains self.now.members i ≡ true → HasRoom self.now i }
        ensures room_is_limited { (i : ℕ) → HasRoom self.now i → i < INDEX_LIMIT }
    {
        bit_of_lowest(&self.layer0, id)
    }

    /// Whether every member of `other` is a member. It compares words, block by block. Ports `hibitset::BitSet::contains_set`.
    pub fn contains_set(&self, other: &BitSet) -> bool
        ensures { IsTrue result ↔ ((i : ℕ) → set.contains other.now.members i ≡ true → set.contains self.now.members i ≡ true) }
    {
        covers_lowest(&self.layer0, &other.layer0)
    }

    /// Takes every member out. The room stays, and the words of all room are written. Ports `hibitset::BitSet::clear`.
    pub fn clear(&mut self)
        ensures members { self.new.members ≡ set.empty }
        ensures none { HasNone self.new.members }
        ensures room { self.new.room ≡ self.old.room }
    {
        self.layer0.fill();
        wipe(&mut self.layer1);
        wipe(&mut self.layer2);
        wipe(&mut self.layer3);
        self.top = 0;
    }

    /// Whether there is no member. It reads one word. Ports `hibitset::BitSetLike::is_empty`.
    #[inline(always)]
    pub fn is_empty(&self) -> bool
        ensures { IsTrue result ↔ (self.now.members ≡ set.empty) }
    {
        self.top == 0
    }

    /// How many members there are. It reads the words of the blocks that have room.
    pub fn count(&self) -> usize
        ensures members { result ≡ set.len self.now.members }
        ensures walk { result ≡ length (left (λ i. set.contains self.now.members i) 0) }
    {
        ones_of_lowest(&self.layer0)
    }

    /// How many blocks of 4096 indices have room, each of which is one page of 64 words. Removing takes none away.
    #[inline(always)]
    pub fn page_count(&self) -> usize
        ensures { result ≡ set.len self.now.room }
    {
        self.layer0.count()
    }

    /// As many indices are walked as the set has members. It runs nothing.
    #[inline(always)]
    pub fn sized(&self)
        ensures { set.len self.now.members ≡ length (left (λ i. set.contains self.now.members i) 0) }
    {
        // A look at a field tells the proof what a set keeps.
        let _row = &self.layer0;
    }

    /// The least member that is not below `id`. It reads at most two words of each layer.
    pub fn first_from(&self, id: Index) -> Option<Index>
        ensures first { MatchOption result ((j : ℕ) → id ≤ j → set.contains self.now.members j ≡ true → ⊥) (IsNext (λ j. set.contains self.now.members j) id) }
        ensures below { IfSome result (λ i. i < INDEX_LIMIT) }
    {
        self.first_at(0, id)
    }

    /// The least bit of a layer that is set and not below `from`.
    fn first_at(&self, level: usize, from: u32) -> Option<u32>
        requires { level < LAYERS }
        ensures first { MatchOption result ((j : ℕ) → from ≤ j → has_part self.now.members level j ≡ true → ⊥) (IsNext (has_part self.now.members level) from) }
        ensures below { IfSome result (λ i. i < 64 ^ (LAYERS - level)) }
    {
        let word = self.layer_word(level, from / 64) >> (from % 64);
        if word != 0 {
            return Some(from + word.trailing_zeros());
        }
        if level + 1 == LAYERS {
            return None;
        }
        match self.first_at(level + 1, from / 64 + 1) {
            Some(place) => Some(64 * place + self.layer_word(level, place).trailing_zeros()),
            None => None,
        }
    }

    /// A word of a layer, 0 where there is none.
    #[inline(always)]
    fn layer_word(&self, level: usize, place: u32) -> u64
        requires { level < LAYERS }
        ensures bits { (j : ℕ) → j < 64 → bit_at result j ≡ cond (has_part self.now.members level (64 * place + j)) 1 0 }
        ensures within { (i : ℕ) → has_part self.now.members level i ≡ true → i < 64 ^ (LAYERS - level) }
    {
        match level {
            0 => self.layer0.get(place),
            1 => word_at(&self.layer1, place),
            _ => self.upper_word(level, place),
        }
    }

    // A word of a layer above the two lowest. A walk asks for few of them, which the compiler is told so.
    #[cold]
    #[inline(never)]
    fn upper_word(&self, level: usize, place: u32) -> u64
        requires level { level < LAYERS }
        requires upper { 1 < level }
        ensures bits { (j : ℕ) → j < 64 → bit_at result j ≡ cond (has_part self.now.members level (64 * place + j)) 1 0 }
        ensures within { (i : ℕ) → has_part self.now.members level i ≡ true → i < 64 ^ (LAYERS - level) }
    {
        match level {
            2 => word_at(&self.layer2, place),
            3 => word_at(&self.layer3, place),
            _ => if place == 0 { self.top } else { 0 },
        }
    }

    /// The members, ascending. Ports `hibitset::BitSetLike::iter`.
    #[inline(always)]
    pub fn iter(&self) -> BitIter<&BitSet>
        ensures mask { result.mask.now ≡ self.now }

        ensures has { (i : ℕ) → has_part self.now.members 0 i ≡ set.contains self.now.members i }

        // The list that it gives is the one whose length `count` answers.
        ensures list { left (has_part self.now.members 0) 0 ≡ left (λ i. set.contains self.now.members i) 0 }
        ensures position { result.position ≡ 0 }
        ensures reads { result.reads ≡ 1 }
    {
        BitIter::new(self)
    }
}

impl Layers for BitSet {
    ghost use Rattle.std.specs.FinSet as set;
    ghost use Rattle.hibits.specs.Sets.{has_part, part_covers, part_few};

    ghost has = { λ s. has_part s.members };

    ghost cost = { λ _. 1 };

    ghost most = { λ s. set.len s.members };

    ghost covers = { λ s. part_covers s.members };

    ghost few = { λ s l n lt le. part_few s.members l n };

    #[inline(always)]
    fn word(&self, level: usize, place: u32, reads: &mut Reads) -> u64 {
        reads.add_one();
        self.layer_word(level, place)
    }
}

impl BitSetLike for BitSet {
    #[inline(always)]
    fn contains(&self, id: Index) -> bool {
        BitSet::contains(self, id)
    }
}
