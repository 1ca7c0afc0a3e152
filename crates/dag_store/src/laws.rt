//! Laws of the definitions.

ghost use Rattle.std.specs.Prelude.{ℕ, List, ◌≤◌, ◌++◌, length};
ghost use Rattle.std.specs.List.{AllByRecursion};
ghost use Rattle.gated_log.specs.Log.{IsLog, HasLength, batches};
ghost use Rattle.remote_rules.specs.Mirror.{Mirror};
ghost use Rattle.step_rules.specs.State.{State};
ghost use Rattle.step_rules.specs.Stands.{KeptStore, StandsFor};
ghost use Rattle.dag_store.specs.Kept.{PlainStore};
ghost use Rattle.dag_store.specs.Stands.{StandsBeside};
ghost use Rattle.dag_store.specs.Shown.{IsShownAs};

/// A store that stands for a state beside some mirrors does so by the rules of the whole store.
pub fn stores_stand()
    ensures { (began : ℕ) (kept : PlainStore) (mirrors : List Mirror) (st : State) → StandsBeside began kept mirrors st
        → (shown : KeptStore) × IsShownAs kept shown × StandsFor began shown st }
{}

/// Behind the payloads of a log its file goes on as a log of those that come behind them: where the whole file is the log of all, its
/// bytes from the place of the old closed gate on are the log of the new ones, and the other way round where these are two bytes or more.
pub fn logs_go_on()
    ensures rest { (payloads more : List (List ℕ)) (bytes : List ℕ) → IsLog (batches payloads ++ bytes) (payloads ++ more) → IsLog bytes more }
    ensures whole { (payloads more : List (List ℕ)) (bytes : List ℕ) → AllByRecursion HasLength payloads → 2 ≤ length bytes → IsLog bytes more
        → IsLog (batches payloads ++ bytes) (payloads ++ more) }
{}
