#![tactic(auto)]

//! Words that several crates share: of objects of the outside, which count their faults and may tell what they hold,
//! and of bytes that are cut at a byte.

ghost use Rattle.std.specs.Prelude.{◌≡◌, ◌<◌, ◌≤◌, ◌++◌, ℕ, List, [], ◌∷◌, codes};
ghost use Rattle.outside.specs.Counts.{Rose, last_count};
ghost use Rattle.outside.specs.Parts.{cut_at, split_at, HasNone};

/// A count that never falls and didn't rise is the same.
pub fn unrisen_counts()
    ensures { (before now : ℕ) → before ≤ now → ¬ (Rose before now) → before ≡ now }
{}

/// A count that rose is a greater one, unless its counter stood at the last value, where it counts as risen.
pub fn risen_counts()
    ensures greater { (before now : ℕ) → before < last_count → Rose before now → before < now }
    ensures last { Rose last_count last_count }
{}

/// A mark ends a part, whatever follows, and bytes without one are no part.
pub fn parts_are_cut()
    ensures part { (mark : ℕ) (part rest : List ℕ) → HasNone mark part
        → (cut_at mark (part ++ mark ∷ rest)).parts ≡ part ∷ (cut_at mark rest).parts }
    ensures rest { (mark : ℕ) (bytes : List ℕ) → HasNone mark bytes → split_at mark bytes ≡ bytes ∷ [] }
    ensures example { split_at 32 (codes "a  b") ≡ codes "a" ∷ [] ∷ codes "b" ∷ [] }
{}
