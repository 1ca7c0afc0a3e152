//! The bundle that a disk's bytes are.

ghost use Rattle.std.specs.Prelude.{◌≡◌, ◌≤◌, ◌<◌, ◌⊎◌, ◌↔◌, IfOk, IfSome, IsErrOf, length};
ghost use Rattle.outside.specs.Counts.{Rose};
ghost use Rattle.remote_trait.specs.declared.fault.RemoteFault.TheVariants.{Failed as FaultFailed, Memory as FaultMemory};
ghost use Rattle.remote_bundle.specs.Held.{Peeks};

use crate::held::Held;
use bundle_codec::BundleFault;
use disk_trait::Disk;
use remote_trait::RemoteFault;
use std::alloc::Global;

/// What the fault of a bundle is to who asks a remote.
fn fault_of(fault: BundleFault) -> RemoteFault
    ensures { (result ≡ RemoteFault.Failed) ↔ (fault ≡ BundleFault.Bad) }
{
    match fault {
        BundleFault::Bad => RemoteFault::Failed,
        BundleFault::Memory => RemoteFault::Memory,
    }
}

/// All bytes of a disk, of which there are so many.
fn read_all<D: Disk>(alloc: Global, disk: &mut D, size: u64) -> Result<Vec<u8>, RemoteFault>
    requires { IfSome (D.bytes disk.old) (λ told. size ≡ length told) }
    ensures still { D.bytes disk.new ≡ D.bytes disk.old }
    ensures later { D.faults disk.old ≤ D.faults disk.new }
    ensures read { IfOk result (λ bytes. IfSome (D.bytes disk.old) (λ told. bytes.items ≡ told)) }
    ensures cause { IsErrOf result FaultFailed → Rose (D.faults disk.old) (D.faults disk.new) }
{
    let mut bytes = Vec::from_elem(alloc, 0, size as usize)?;
    let Ok(count) = disk.read(0, &mut bytes) else {
        return Err(RemoteFault::Failed);
    };
    bytes.truncate(count);
    Ok(bytes)
}

/// All bytes of a disk, if there are no more than the limit.
fn read_file<D: Disk>(alloc: Global, disk: &mut D, limit: u64) -> Result<Vec<u8>, RemoteFault>
    ensures still { D.bytes disk.new ≡ D.bytes disk.old }
    ensures later { D.faults disk.old ≤ D.faults disk.new }
    ensures read { IfOk result (λ bytes. IfSome (D.bytes disk.old) (λ told. (bytes.items ≡ told) × (length told ≤ limit))) }
    ensures cause { IsErrOf result FaultFailed → IfSome (D.bytes disk.old) (λ told. Rose (D.faults disk.old) (D.faults disk.new) ⊎ (limit < length told)) }
    ensures memory { IsErrOf result FaultMemory → IfSome (D.bytes disk.old) (λ told. limit < length told → ⊥) }
{
    let Ok(size) = disk.size() else {
        return Err(RemoteFault::Failed);
    };
    if size > limit {
        return Err(RemoteFault::Failed);
    }
    read_all(alloc, disk, size)
}

/// Reads the bundle on a disk. `Failed` where a call of the disk fails, or its bytes are more than the limit, or no bundle.
pub(crate) fn peek<D: Disk>(alloc: Global, disk: &mut D, limit: u64) -> Result<Held, RemoteFault>
    ensures still { D.bytes disk.new ≡ D.bytes disk.old }
    ensures later { D.faults disk.old ≤ D.faults disk.new }
    ensures answers { IfSome (D.bytes disk.old) (λ told. Peeks limit told (D.faults disk.old) (D.faults disk.new) result) }
{
    let bytes = read_file(alloc, disk, limit)?;
    match Held::read(alloc, bytes) {
        Ok(held) => Ok(held),
        Err(fault) => Err(fault_of(fault)),
    }
}
