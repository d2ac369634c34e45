ghost use Rattle.std.specs.Prelude.{◌≡◌, ℕ, ◌+◌, true, false, not, ◌&&◌, ◌||◌, MatchOption, ◌==◌, nat_lt};
ghost use Rattle.atoms.specs.Bits.{bit};
ghost use Rattle.atoms.specs.Sets.{has, with_atom, count_below, has_only_letters, LowestIn};

/// How many atoms a level has: 0 to 63.
pub const ATOMS: u8 = 64;

/// The atom that is always true.
pub const TRUE_ATOM: u8 = 15;

/// A set of atoms, atom `a` as bit `a`.
#[derive(Clone, Copy, PartialEq, Eq, Debug)]
pub struct AtomSet {
    pub bits: u64,
}

// The set whose atoms are the bits of the word.
impl From<u64> for AtomSet {
    ghost from_gives = { λ bits set. (set.bits ≡ bits) × ((i : ℕ) → has set i ≡ bit bits i) };

    fn from(bits: u64) -> AtomSet {
        AtomSet { bits }
    }
}

impl AtomSet {
    /// No atom.
    pub const NONE: AtomSet = AtomSet { bits: 0 };

    /// The letters: atoms 0 to 14.
    pub const LETTERS: AtomSet = AtomSet { bits: 0x7fff };

    /// Whether the atom `a` is in the set.
    pub fn member(self, a: u8) -> bool
        ensures { result ≡ has self a }
    {
        a < ATOMS && self.bits >> a & 1 == 1
    }

    /// The set with the atom `a`. A number that is no atom adds nothing.
    pub fn insert(self, a: u8) -> AtomSet
        ensures word { result ≡ with_atom self a }
        ensures atoms { (i : ℕ) → has result i ≡ has self i || (a == i && nat_lt i 64) }
    {
        if a < ATOMS {
            AtomSet {
                bits: self.bits | 1 << a,
            }
        } else {
            self
        }
    }

    /// The set without the atom `a`.
    pub fn remove(self, a: u8) -> AtomSet
        ensures rest { (i : ℕ) → has result i ≡ has self i && not (a == i) }
        ensures fewer { has self a ≡ true → count_below 64 (has result) + 1 ≡ count_below 64 (has self) }
    {
        if a < ATOMS {
            AtomSet {
                bits: self.bits & !(1 << a),
            }
        } else {
            self
        }
    }

    /// The atoms of either set.
    pub fn union(self, b: AtomSet) -> AtomSet
        ensures { (i : ℕ) → has result i ≡ has self i || has b i }
    {
        AtomSet {
            bits: self.bits | b.bits,
        }
    }

    /// The atoms of both sets.
    pub fn intersection(self, b: AtomSet) -> AtomSet
        ensures { (i : ℕ) → has result i ≡ has self i && has b i }
    {
        AtomSet {
            bits: self.bits & b.bits,
        }
    }

    /// The atoms of this set that are not in `b`.
    pub fn difference(self, b: AtomSet) -> AtomSet
        ensures { (i : ℕ) → has result i ≡ has self i && not (has b i) }
    {
        AtomSet {
            bits: self.bits & !b.bits,
        }
    }

    /// The atoms that are not in this set.
    pub fn complement(self) -> AtomSet
        ensures { (i : ℕ) → has result i ≡ nat_lt i 64 && not (has self i) }
    {
        AtomSet { bits: !self.bits }
    }

    /// Whether no atom is in the set.
    #[tactic(auto, using(crate::proofs::Members::empty_test, crate::proofs::Members::empty_tested))]
    pub fn is_empty(self) -> bool
        ensures all { result ≡ true → (i : ℕ) → has self i ≡ false }
        ensures some { ((i : ℕ) → has self i ≡ false) → result ≡ true }
    {
        self == Self::NONE
    }

    /// How many atoms are in the set.
    pub fn len(self) -> u32
        ensures { result ≡ count_below 64 (has self) }
    {
        self.bits.count_ones()
    }

    /// The lowest atom of the set.
    pub fn lowest(self) -> Option<u8>
        ensures { MatchOption result ((i : ℕ) → has self i ≡ false) (λ a. LowestIn self a) }
    {
        if self.is_empty() {
            return None;
        }
        Some(self.bits.trailing_zeros() as u8)
    }

    /// Whether every atom of the set is a letter.
    pub fn only_letters(self) -> bool
        ensures { result ≡ has_only_letters self }
    {
        self.difference(Self::LETTERS).is_empty()
    }
}
