//! What asking leaves is what the rules of asks say.

ghost use Rattle.std.specs.Prelude.{◌≡◌, ℕ, List, Option};
ghost use Rattle.std.specs.declared.result.Result.{Result};
ghost use Rattle.remote_rules.specs.CloneData.{CloneData};
ghost use Rattle.remote_rules.specs.Mirror.{Mirror};
ghost use Rattle.remote_rules.specs.Calls.{IsAskedFor, IsCloned, IsPulled};
ghost use Rattle.remote_rules.specs.Asking.{IsOneAsk, AsksInTurn};
ghost use Rattle.remote_rules.specs.declared.MirrorFault.{MirrorFault};
ghost use Rattle.remote_trait.specs.Calls.{Refreshes};
ghost use Rattle.mirror_set.specs.declared.fresh.FreshFault.{FreshFault};
ghost use Rattle.mirror_set.specs.Fresh.{PlainFresh, AsksFresh, fresh_end};
ghost use Rattle.mirror_set.specs.Asking.{Asks, IsAsk, AskInTurn, IsItsClone, end_of};

/// An asking call for names, such calls one after another, an asking call for clone data, and one for what a pull takes are asks by the rules: each mirror is asked
/// at most once, and those that failed move to the back.
pub fn asks_are_ruled()
    ensures names { (count : ℕ) (end : Option MirrorFault) (before now : List Mirror) → IsAsk count end before now → IsOneAsk (IsAskedFor count) before end now }
    ensures turns { (answered : ℕ) (counts : List ℕ) (end : Option MirrorFault) (before now : List Mirror) → AskInTurn answered counts end before now
        → AsksInTurn answered counts before end now }
    ensures pull { (from : ℕ) (before now : List Mirror) (result : Result PlainFresh FreshFault) → AsksFresh from before now result → IsOneAsk (IsPulled from) before (fresh_end result) now }
    ensures clone { (before now : List Mirror) (result : Result CloneData MirrorFault) → Asks Refreshes IsItsClone before now result → IsOneAsk IsCloned before (end_of result) now }
{}
