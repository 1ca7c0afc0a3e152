#![tactic(auto)]

//! A disk whose calls may fail, and which may crash at any moment: what it tells, what a crash may leave, and what
//! each call changes of that.

ghost use Rattle.std.specs.Prelude.{◌≡◌, ◌<◌, ◌≤◌, ◌++◌, ◌+◌, ◌-◌, ◌%◌, ℕ, List, [], ◌∷◌, Option, Some, IfOk, IfSome, OnOk, OnErr, length, min, take, drop, slice_index};
ghost use Rattle.outside.specs.Counts.{HasCause};
ghost use Rattle.outside.specs.Told.{WhereTold};
ghost use Rattle.disk_trait.specs.Images.{Told, IsImage, surely, IsSound, LeftAt, moment_of, last_moment, fresh_disk};
ghost use Rattle.disk_trait.specs.Meanwhile.{Meanwhile, Lasts, Measures, Reads};
ghost use Rattle.disk_trait.specs.Calls.{Passes, with_range, Writes, FailsToWrite, Syncs, OrRefuses, Succeeds, Goes};

/// A call of the disk failed.
#[derive(Clone, Copy, Debug, PartialEq, Eq)]
pub struct DiskFault;

/// Bytes that outlive a crash, up to what was not synced.
///
/// Its clock counts the calls of the other four that have begun and those that have returned. At 2^62 each of them
/// is refused, and changes nothing.
pub trait Disk {
    /// The bytes that a read gives now, where it tells them. It may do so without being honest: then its size, its reads
    /// and its syncs leave them as they are, and what a write makes of them isn't known.
    ghost bytes: { Self → Option (List ℕ) };

    /// What it tells, where it is honest.
    ghost told: { Self → Option Told };

    /// What it has at each moment, where it tells that of a disk which another process writes meanwhile.
    ghost meanwhile: { Self → Option Meanwhile };

    /// A count of faults. It never falls, and rises at each call that fails, up to the last value of a counter.
    ghost faults: { Self → ℕ };

    /// How many bytes it has.
    fn size(&mut self) -> Result<u64, DiskFault>
        ensures size { IfOk result (λ n. IfSome (bytes self.old) (λ b. n ≡ length b)) }
        ensures measured { IfOk result (λ n. WhereTold (meanwhile self.old) (meanwhile self.new) (Measures n)) }
        ensures lasts { WhereTold (meanwhile self.old) (meanwhile self.new) Lasts }
        ensures still { bytes self.new ≡ bytes self.old }
        ensures ok { OnOk result (Goes (Succeeds Passes) (told self.old) (told self.new)) }
        ensures err { OnErr result (Goes (OrRefuses Passes) (told self.old) (told self.new)) }
        ensures cause { HasCause (faults self.old) (faults self.new) result };

    /// Fills the front of `out` with the bytes from a place on, all that there are, and answers how many.
    fn read(&mut self, at: u64, out: &mut [u8]) -> Result<usize, DiskFault>
        ensures bound { IfOk result (λ n. n ≤ length out.old) }
        ensures count { IfOk result (λ n. IfSome (bytes self.old) (λ b. n ≡ min (length out.old) (length b - at))) }
        ensures bytes { IfOk result (λ n. IfSome (bytes self.old) (λ b. out.new ≡ take n (drop at b) ++ drop n out.old)) }
        ensures read { IfOk result (λ n. WhereTold (meanwhile self.old) (meanwhile self.new) (Reads at n out.new)) }
        ensures lasts { WhereTold (meanwhile self.old) (meanwhile self.new) Lasts }
        ensures still { bytes self.new ≡ bytes self.old }
        ensures ok { OnOk result (Goes (Succeeds Passes) (told self.old) (told self.new)) }
        ensures err { OnErr result (Goes (OrRefuses Passes) (told self.old) (told self.new)) }
        ensures cause { HasCause (faults self.old) (faults self.new) result };

    /// Writes the piece from a place on, which is at most the number of bytes. It may lengthen the disk.
    fn write(&mut self, at: u64, piece: &[u8]) -> Result<(), DiskFault>
        requires { IfSome (told self.old) (λ t. at ≤ length t.bytes) }
        ensures ok { OnOk result (Goes (Succeeds (Writes at piece.now)) (told self.old) (told self.new)) }
        ensures err { OnErr result (Goes (OrRefuses (FailsToWrite at piece.now)) (told self.old) (told self.new)) }
        ensures cause { HasCause (faults self.old) (faults self.new) result };

    /// Makes sure of all that was written.
    fn sync(&mut self) -> Result<(), DiskFault>
        ensures still { bytes self.new ≡ bytes self.old }
        ensures lasts { WhereTold (meanwhile self.old) (meanwhile self.new) Lasts }
        ensures ok { OnOk result (Goes (Succeeds Syncs) (told self.old) (told self.new)) }
        ensures err { OnErr result (Goes (OrRefuses Passes) (told self.old) (told self.new)) }
        ensures cause { HasCause (faults self.old) (faults self.new) result };

    /// The moment: how many calls have begun, and how many have returned. It is even, since none is under way.
    fn clock(&self) -> u64
        ensures moment { IfSome (told self.now) (λ t. result ≡ moment_of t) }
        ensures even { result % 2 ≡ 0 }
        ensures bound { result ≤ last_moment };

    /// An honest disk tells the bytes that a read gives.
    ghost tells: { (disk : Self) → IfSome (told disk) (λ t. bytes disk ≡ Some t.bytes) };

    /// What a read gives is one of the lists that a crash now may leave, the moment is even, and none is past the last.
    ghost sound: { (disk : Self) → IfSome (told disk) IsSound };
}

/// After a restart a crash leaves what is there.
pub fn nothing_lost()
    ensures { (bytes image : List ℕ) → IsImage (fresh_disk bytes).now image → image ≡ bytes }
{}

/// Three bytes are sure, and three were written from place 1 on. A crash leaves the first byte, three bytes or four in
/// all, and behind the first any bytes: the old ones, the new ones, or others.
pub fn torn_write()
    ensures unwritten { IsImage (with_range (surely (1 ∷ 2 ∷ 3 ∷ [])) 1 3) (1 ∷ 2 ∷ 3 ∷ []) }
    ensures torn { IsImage (with_range (surely (1 ∷ 2 ∷ 3 ∷ [])) 1 3) (1 ∷ 7 ∷ 3 ∷ 9 ∷ []) }
    ensures first { (image : List ℕ) → IsImage (with_range (surely (1 ∷ 2 ∷ 3 ∷ [])) 1 3) image → slice_index image 0 ≡ 1 }
    ensures size { (image : List ℕ) → IsImage (with_range (surely (1 ∷ 2 ∷ 3 ∷ [])) 1 3) image → (3 ≤ length image) × (length image ≤ 4) }
{}

/// Once a sync has returned, a crash leaves what a read gives.
pub fn synced()
    ensures { (old new : Told) (image : List ℕ) → Syncs old new → LeftAt new (moment_of new) image → image ≡ new.bytes }
{}

/// A disk that was loaded is sound, and each call of an honest disk leaves it so.
pub fn calls_keep_soundness()
    ensures fresh { (bytes : List ℕ) → IsSound (fresh_disk bytes) }
    ensures passes { (old new : Told) → IsSound old → Succeeds Passes old new → IsSound new }
    ensures refuses { (old new : Told) → IsSound old → OrRefuses Passes old new → IsSound new }
    ensures writes { (at : ℕ) (piece : List ℕ) (old new : Told) → IsSound old → at ≤ length old.bytes
        → Succeeds (Writes at piece) old new → IsSound new }
    ensures fails { (at : ℕ) (piece : List ℕ) (old new : Told) → IsSound old
        → OrRefuses (FailsToWrite at piece) old new → IsSound new }
    ensures syncs { (old new : Told) → IsSound old → Succeeds Syncs old new → IsSound new }
{}
