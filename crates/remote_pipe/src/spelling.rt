//! The frames of requests.

ghost use Rattle.std.specs.Prelude.{◌≡◌, ◌≤◌, ◌<◌, ◌^◌, ◌*◌, ◌++◌, length, IfOk, OnOk};
ghost use Rattle.std.specs.Int.{w16, w32, w64, to_be_bytes};
ghost use Rattle.batch_codec.specs.Payload.{names_bytes};
ghost use Rattle.remote_serve.specs.Requests.{ToRefresh, ToClone, ToNames, ToPath};
ghost use Rattle.std.specs.List.{AllByRecursion};
ghost use Rattle.id_groups.specs.Name.{IsName};
ghost use Rattle.remote_pipe.specs.Peer.{request_frame};

use id_groups::Name;
use std::alloc::{AllocError, Global};

/// Room for a frame whose body has so many bytes, which is begun by its length.
fn begin(alloc: Global, size: u32) -> Result<Vec<u8>, AllocError>
    ensures { IfOk result (λ out. out.items ≡ to_be_bytes w32 size) }
{
    let mut out = Vec::with_capacity(alloc, 4 + size as usize)?;
    out.extend_from_slice(&size.to_be_bytes())?;
    Ok(out)
}

/// The frame of a request for a refresh.
pub(crate) fn refresh_frame(alloc: Global) -> Result<Vec<u8>, AllocError>
    ensures { IfOk result (λ out. out.items ≡ request_frame ToRefresh) }
{
    let mut out = begin(alloc, 1)?;
    out.push(1)?;
    Ok(out)
}

/// The frame of a request for clone data.
pub(crate) fn clone_frame(alloc: Global) -> Result<Vec<u8>, AllocError>
    ensures { IfOk result (λ out. out.items ≡ request_frame ToClone) }
{
    let mut out = begin(alloc, 1)?;
    out.push(2)?;
    Ok(out)
}

/// Puts a count in four bytes.
fn put_count(out: &mut Vec<u8>, count: u32) -> Result<(), AllocError>
    ensures { OnOk result (out.new.items ≡ out.old.items ++ to_be_bytes w32 count) }
{
    out.extend_from_slice(&count.to_be_bytes())
}

/// Puts a number in eight bytes.
fn put_number(out: &mut Vec<u8>, number: u64) -> Result<(), AllocError>
    ensures { OnOk result (out.new.items ≡ out.old.items ++ to_be_bytes w64 number) }
{
    out.extend_from_slice(&number.to_be_bytes())
}

/// Puts how many heads there are in two bytes.
fn put_few(out: &mut Vec<u8>, count: u16) -> Result<(), AllocError>
    ensures { OnOk result (out.new.items ≡ out.old.items ++ to_be_bytes w16 count) }
{
    out.extend_from_slice(&count.to_be_bytes())
}

/// How many bytes a name has.
pub(crate) fn name_size(name: &Name) -> u32
    ensures size { result ≡ 20 }
    ensures name { IsName name.now }
{
    name.lend().bytes.len() as u32
}

/// Puts a name.
fn put_name(out: &mut Vec<u8>, name: &Name) -> Result<(), AllocError>
    ensures { OnOk result (out.new.items ≡ out.old.items ++ name.now) }
{
    out.extend_from_slice(name.lend().bytes)
}

/// Puts names, one behind another.
fn put_names(out: &mut Vec<u8>, names: &[Name]) -> Result<(), AllocError>
    ensures { OnOk result (out.new.items ≡ out.old.items ++ names_bytes names.now) }
{
    'names: for name in names {
        put_name(out, name)?;
    }
    Ok(())
}

/// The frame of a request for so many names, from so many steps on from a commit.
pub(crate) fn names_frame(
    alloc: Global,
    x: &Name,
    back: u64,
    count: u32,
) -> Result<Vec<u8>, AllocError>
    ensures { IfOk result (λ out. out.items ≡ request_frame (ToNames x.now back count)) }
{
    let size = name_size(x);
    let mut out = begin(alloc, 13 + size)?;
    out.push(3)?;
    put_name(&mut out, x)?;
    put_number(&mut out, back)?;
    put_count(&mut out, count)?;
    Ok(out)
}

/// How many bytes names take.
pub(crate) fn names_size(names: &[Name]) -> u32
    requires { length names.now < 2 ^ 16 }
    ensures size { result ≡ length (names_bytes names.now) }
    ensures each { result ≡ 20 * length names.now }
    ensures names { AllByRecursion IsName names.now }
{
    let mut size = 0;
    'names: for name in names {
        size += name_size(name);
    }
    size
}

/// The frame of a request for a way to a commit from those that these heads make known.
pub(crate) fn path_frame(alloc: Global, heads: &[Name], name: &Name) -> Result<Vec<u8>, AllocError>
    requires { length heads.now < 2 ^ 16 }
    ensures { IfOk result (λ out. out.items ≡ request_frame (ToPath heads.now name.now)) }
{
    let size = names_size(heads) + name_size(name);
    let mut out = begin(alloc, 3 + size)?;
    out.push(4)?;
    put_few(&mut out, heads.len() as u16)?;
    put_names(&mut out, heads)?;
    put_name(&mut out, name)?;
    Ok(out)
}
