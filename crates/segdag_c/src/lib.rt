#![tactic(auto)]

//! The store as a C library: a log is opened behind a handle, command lines are answered in the caller's process, and a few calls
//! take and give names as bytes. It reaches no file: it is lent the bytes of the log and of its mirrors, and says which writes and syncs are to be performed.

ghost use Rattle.std.specs.Prelude.{◌≡◌, ◌≤◌, ◌⊎◌, ◌+◌, ◌++◌, ℕ, List, [], ◌∷◌, length, take};
ghost use Rattle.disk_trait.specs.Images.{Told};
ghost use Rattle.disk_trait.specs.Since.{SureSince};
ghost use Rattle.gated_log.specs.Held.{Held};
ghost use Rattle.gated_log.specs.Holding.{HasPayloads, IsOnDisk};
ghost use Rattle.gated_log.specs.Load.{LeavesOldOrFresh};
ghost use Rattle.call_disk.specs.Noted.{Call};
ghost use Rattle.call_disk.specs.Performed.{AllOrNone, IsAs};
ghost use Rattle.id_groups.specs.Name.{Name};
ghost use Rattle.commit_graph.specs.World.{World};
ghost use Rattle.batch_codec.specs.Payload.{Payload};
ghost use Rattle.gated_log.specs.Log.{IsLog};
ghost use Rattle.change_rules.specs.declared.Limits.{Limits};
ghost use Rattle.change_rules.specs.Holding.{HoldAs, HoldPayloads};
ghost use Rattle.change_rules.specs.Standard.{standard};
ghost use Rattle.remote_rules.specs.Mirror.{Mirror};
ghost use Rattle.step_rules.specs.State.{IsStore, State, world_at};
ghost use Rattle.core_rules.specs.Cores.{Written, texts_in, with_changes};
ghost use Rattle.core_rules.specs.Taking.{AllMayCome, opened_late};
ghost use Rattle.dag_store.specs.Kept.{PlainStore};
ghost use Rattle.dag_store.specs.Stands.{Stands, StandsBeside};
ghost use Rattle.dag_store.specs.declared.following.Followed.TheVariants.{Done};
ghost use Rattle.segdag_c.specs.Following.{StoreFollows};
ghost use Rattle.segdag_c.specs.Loads.{IsOpened, Settles};
ghost use Rattle.segdag_c.specs.Stores.{IsOldOrNew, Stores};

mod answering;
mod calls;
mod changing;
mod codes;
mod direct;
mod exports;
mod following;
mod handle;
mod held;
mod laws;
mod loading;
mod mirror;
mod mirroring;
mod names;
mod pairs;
mod parts;
mod sizes;
mod slot;
mod stored;

pub use crate::laws::{clients_begin, clients_run, clients_stop, codes_tell};
pub use crate::slot::Slot;

/// Where a disk performs the calls that a line noted all together or not at all, a crash at each moment leaves the store's log, or that with the
/// change, as where it stops anywhere; and it ends as it was, or has the next store's log. Where it so performs what a load noted, a crash
/// leaves what it left before, or a file of at most one byte where there was one. A disk that ends as it was has the log that it had.
pub fn all_or_none_keeps()
    ensures stored { (kept next : PlainStore) (payload : List ℕ) (calls : List Call) (old whole new : Told) → Stores kept payload next calls old → AllOrNone calls old whole new
        → SureSince (λ moment. IsOldOrNew kept payload) old new
        × (IsAs new old ⊎ (HasPayloads kept.limits.log new (kept.log.payloads ++ payload ∷ []) × IsOnDisk next.log new)) }
    ensures settled { (store : PlainStore) (calls : List Call) (old whole new : Told) → Settles store calls old → AllOrNone calls old whole new
        → LeavesOldOrFresh old new × (IsAs new old ⊎ (HasPayloads store.limits.log new store.log.payloads × IsOnDisk store.log new)) }
    ensures same { (log : Held) (old new : Told) → IsAs new old → IsOnDisk log old → IsOnDisk log new }
{}

/// A store that stands for a core's state, and follows bytes that are the log of changes which may come, stands for the state in which the core
/// has taken them.
pub fn following_takes()
    ensures { (limits : Limits) (mirrors : List Mirror) (old new : PlainStore) (bytes : List ℕ) (texts : List (List ℕ)) (began : ℕ) (st : State) (more : List Written) → StoreFollows mirrors old bytes texts (Done new)
        → StandsBeside began old mirrors st → IsLog bytes (texts_in more) → AllMayCome limits st.store.stored st.store.payloads more
        → StandsBeside began new mirrors (record st { store = with_changes st.store more }) }
{}

/// A store that is opened on bytes that hold the newest world stands for the state of a core that has taken all changes since an earlier start,
/// and whose sessions were reloaded.
pub fn opened_stands()
    ensures { (bytes : List ℕ) (cache began : ℕ) (store : PlainStore) (past : List (World Name)) (w : World Name) (payloads : List Payload) → IsOpened bytes cache store
        → HoldAs standard.log bytes payloads w → IsStore (opened_late past w payloads) → began + length past ≡ length payloads
        → ((i : ℕ) → i ≤ length past → HoldPayloads (take (began + i) payloads) (world_at (opened_late past w payloads) i)) → Stands began store (opened_late past w payloads) }
{}
