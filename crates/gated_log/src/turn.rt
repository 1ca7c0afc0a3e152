// Reads a log from its front on, and goes on where another process has extended it meanwhile.
ghost use Rattle.std.specs.Prelude.{◌≡◌, ◌≤◌, ◌<◌, ◌⊎◌, ◌^◌, ◌+◌, ◌++◌, ℕ, List, [], length, IfOk, IfErr, IfSome, OnOk};
ghost use Rattle.outside.specs.Counts.{Rose};
ghost use Rattle.outside.specs.Told.{WhereTold};
ghost use Rattle.disk_trait.specs.Calls.{Goes, Passes, OrRefuses};
ghost use Rattle.disk_trait.specs.Meanwhile.{Lasts};
ghost use Rattle.gated_log.specs.Growing.{IsGrowing};
ghost use Rattle.gated_log.specs.Log.{IsDamaged};
ghost use Rattle.gated_log.specs.Load.{OnlyReads, after_reads};
ghost use Rattle.gated_log.specs.Turns.{TurnLoads, TurnAnswers, IsReading, IsDamage, IsMore, ReadsBehind};
ghost use Rattle.gated_log.specs.declared.LoadLog.TheVariants.{Damaged, Disk, Memory};
ghost use Rattle.gated_log.specs.declared.turn.Turn.TheVariants.{Whole, Open};

use crate::{LoadLog, Log};
use disk_trait::Disk;
use std::alloc::{AllocError, Global};

// How many reads are made at most, each of them of what was behind the one before.
pub(crate) const MOST_READS: u32 = 1000;

// What one read came to.
#[derive(Drop)]
pub(crate) enum Turn {
    // The log.
    Whole(Log),
    // The gate at this place is open, its batch with the next gate isn't read yet, and there are so many bytes by now.
    Open(u64, u64),
}

// How many zeros are put behind bytes at once.
const BLOCK: usize = 1024;

// Puts pieces of a block behind the bytes, up to a size that they don't pass: a `resize` would put byte by byte.
fn fill_up(bytes: &mut Vec<u8>, block: &[u8], size: usize) -> Result<(), AllocError>
    requires some { 1 ≤ length block.now }
    requires within { length bytes.old.items ≤ size }
    ensures front { OnOk result ((more : List ℕ) × (bytes.new.items ≡ bytes.old.items ++ more)) }
    ensures len { OnOk result (length bytes.new.items ≡ size) }
{
    bytes.reserve_exact(size - bytes.len())?;
    'pieces: while bytes.len() < size {
        let more = (size - bytes.len()).min(block.len());
        let (piece, _) = block.split_at(more);
        bytes.extend_from_slice(piece)?;
    }
    Ok(())
}

// Reads from where the bytes end up to a size, all that there are.
fn read_behind<D: Disk>(disk: &mut D, bytes: &mut Vec<u8>, size: u64) -> Result<(), LoadLog>
    requires { (length bytes.old.items ≤ size) × (size ≤ 2 ^ 32) }
    ensures whole { OnOk result (IfSome (D.bytes disk.old) (λ b. size ≡ length b → bytes.old.items ≡ [] → bytes.new.items ≡ b)) }
    ensures still { D.bytes disk.new ≡ D.bytes disk.old }
    ensures read { OnOk result (WhereTold (D.meanwhile disk.old) (D.meanwhile disk.new) (ReadsBehind bytes.old.items size bytes.new.items)) }
    ensures lasts { WhereTold (D.meanwhile disk.old) (D.meanwhile disk.new) Lasts }
    ensures within { OnOk result (length bytes.new.items ≤ size) }
    ensures ok { OnOk result (Goes Passes (D.told disk.old) (D.told disk.new)) }
    ensures reads { Goes (OnlyReads 1) (D.told disk.old) (D.told disk.new) }
    ensures err { IfErr result (λ e. (e ≡ Memory) ⊎ ((fault : _) × (e ≡ Disk fault))) }
    ensures later { D.faults disk.old ≤ D.faults disk.new }
    ensures cause { (fault : _) → result ≡ Err (Disk fault) → Rose (D.faults disk.old) (D.faults disk.new) }
{
    let end = bytes.len();
    fill_up(bytes, &[0; BLOCK], size as usize)?;
    let count = disk.read(end as u64, &mut bytes[end..])?;
    bytes.truncate(end + count);
    Ok(())
}

// Where more bytes are there by now than were read, it answers that there is more to read behind the open gate at that place.
// Otherwise the gate is damage.
fn ask_again<D: Disk>(disk: &mut D, read: u64, at: u64, limit: u64) -> Result<Turn, LoadLog>
    ensures open { (place size : _) → result ≡ Ok (Open place size) → (read < size) × (size ≤ limit) }
    ensures never { (log : _) → result ≡ Ok (Whole log) → ⊥ }
    ensures same { IfSome (D.bytes disk.old) (λ b. length b ≤ read → IsDamage at result) }
    ensures still { D.bytes disk.new ≡ D.bytes disk.old }
    ensures meanwhile { WhereTold (D.meanwhile disk.old) (D.meanwhile disk.new) (IsMore read limit result) }
    ensures ok { OnOk result (Goes Passes (D.told disk.old) (D.told disk.new)) }
    ensures damaged { (at : _) → result ≡ Err (Damaged at) → Goes Passes (D.told disk.old) (D.told disk.new) }
    ensures reads { Goes (OnlyReads 1) (D.told disk.old) (D.told disk.new) }
    ensures later { D.faults disk.old ≤ D.faults disk.new }
    ensures cause { (fault : _) → result ≡ Err (Disk fault) → Rose (D.faults disk.old) (D.faults disk.new) }
{
    let size = disk.size()?;
    if size <= read {
        return Err(LoadLog::Damaged(at));
    }
    if size > limit {
        return Err(LoadLog::TooLarge(size));
    }
    Ok(Turn::Open(at, size))
}

// Reads from where the bytes end up to a size. Where the log isn't whole then, it answers how much there is to read by now.
pub(crate) fn read_once<D: Disk>(
    alloc: Global,
    disk: &mut D,
    bytes: &mut Vec<u8>,
    size: u64,
    limit: u64,
) -> Result<Turn, LoadLog>
    requires limits { (1 ≤ limit) × (limit ≤ 2 ^ 32) × (size ≤ limit) × (length bytes.old.items ≤ size) }
    requires told { IfSome (D.bytes disk.old) (λ b. (size ≡ length b) × (bytes.old.items ≡ [])) }
    ensures loads { IfSome (D.bytes disk.old) (λ b. TurnLoads limit b result) }
    ensures still { D.bytes disk.new ≡ D.bytes disk.old }
    ensures meanwhile { (payloads : ℕ → List (List ℕ)) (from start turns : ℕ) → WhereTold (D.meanwhile disk.old) (D.meanwhile disk.new) (λ old new.
        Lasts old new × (IsGrowing old.film payloads from → IsReading old.film payloads from start old.now turns bytes.old.items size
        → TurnAnswers limit old.film payloads from start new.now turns bytes.new.items result)) }
    ensures limit { (log : _) → result ≡ Ok (Whole log) → log.limit ≡ limit }
    ensures open { (at size : _) → result ≡ Ok (Open at size) → (size ≤ limit) × (length bytes.new.items ≤ size) }
    ensures whole { (log : _) → result ≡ Ok (Whole log) → Goes Passes (D.told disk.old) (D.told disk.new) }
    ensures damaged { (at : _) → result ≡ Err (Damaged at) → Goes (λ old new. new ≡ after_reads 2 old) (D.told disk.old) (D.told disk.new) }
    ensures reads { Goes (OnlyReads 2) (D.told disk.old) (D.told disk.new) }
    ensures once { IfSome (D.bytes disk.old) (λ b. ((at : ℕ) → IsDamaged b at → ⊥) → Goes (OnlyReads 1) (D.told disk.old) (D.told disk.new)) }
    ensures later { D.faults disk.old ≤ D.faults disk.new }
    ensures cause { (fault : _) → result ≡ Err (Disk fault) → Rose (D.faults disk.old) (D.faults disk.new) }
{
    read_behind(disk, bytes, size)?;
    match Log::of_bytes(alloc, bytes, limit) {
        Ok(log) => Ok(Turn::Whole(log)),
        Err(LoadLog::Damaged(at)) => ask_again(disk, bytes.len() as u64, at, limit),
        Err(LoadLog::TooLarge(size)) => Err(LoadLog::TooLarge(size)),
        Err(LoadLog::Disk(fault)) => Err(LoadLog::Disk(fault)),
        Err(LoadLog::Memory) => Err(LoadLog::Memory),
    }
}
