//! Words and what they are read as, proved by computing.

ghost use Rattle.std.specs.Prelude.{◌≡◌, ◌∷◌, [], List, true, false, codes};
ghost use Rattle.clap.specs.Words.{Text, fault_of};
ghost use Rattle.clap.specs.declared.error.kind.ErrorKind.TheVariants as kind;
ghost use Rattle.program_words.specs.Command.{command as whole};
ghost use Rattle.program_words.specs.Usage.{AreMatches, IsUsage, IsNoUsage};
ghost use Rattle.program_words.specs.declared.usage.Usage.{Usage};
ghost use Rattle.clap.specs.Words.{matches_of};
ghost use Rattle.program_words.specs.declared.usage.Mode.TheVariants.{Run, Demo};

/// No words, a number that is none of its option's and a call for help are refused; an option may stand before the mode
/// and behind it, and what isn't there is as it is meant to be.
#[tactic(auto, unfolding(clap::proofs::OnLiterals::clap_on_literals))]
pub fn words_spelled_out()
    ensures none { fault_of whole [] ≡ kind.MissingRequiredArgument ∷ [] }
    ensures few { fault_of whole (codes "run" ∷ codes "--cache" ∷ codes "0" ∷ []) ≡ kind.ValueValidation ∷ [] }
    ensures help { fault_of whole (codes "--help" ∷ []) ≡ kind.DisplayHelp ∷ [] }
    ensures taken { fault_of whole (codes "--size" ∷ codes "3" ∷ codes "demo" ∷ codes "--start=5" ∷ []) ≡ [] }
    ensures read { AreMatches (matches_of whole (codes "--size" ∷ codes "3" ∷ codes "demo" ∷ codes "--start=5" ∷ []))
        (record { mode = Demo; cache = 4096; size = 3; start = 5; wait = false }) }
    ensures plain { AreMatches (matches_of whole (codes "run" ∷ [])) (record { mode = Run; cache = 4096; size = 1000; start = 0; wait = false }) }
    ensures waiting { AreMatches (matches_of whole (codes "run" ∷ codes "--wait" ∷ [])) (record { mode = Run; cache = 4096; size = 1000; start = 0; wait = true }) }
    ensures flag { fault_of whole (codes "run" ∷ codes "--wait=1" ∷ []) ≡ kind.TooManyValues ∷ [] }
{}

/// Words are a usage in one way at most, and those of no usage in none.
pub fn usages_are_exact()
    ensures one { (words : List Text) (a b : Usage) → IsUsage words a → IsUsage words b → a ≡ b }
    ensures none { (words : List Text) (usage : Usage) → IsNoUsage words → IsUsage words usage → ⊥ }
{}
