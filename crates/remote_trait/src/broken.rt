//! Which item of clone data breaks its rule.

ghost use Rattle.std.specs.Prelude.{◌≡◌, ◌<◌, ◌+◌, ◌^◌, [], ◌∷◌, length, nat_le, IfOk};
ghost use Rattle.remote_rules.specs.CloneData.{first_broken, first_false};
ghost use Rattle.remote_trait.specs.Broken.{AscendFrom, broken_name, broken_head};

use crate::broken_heads::{first_bad_head, has_needed_names, head_ids};
use crate::broken_names::first_bad_name;
use crate::broken_segments::{end_of_all, first_bad_segment};
use crate::clone::{CloneData, CloneSegment, KnownName};
use id_groups::Name;
use std::alloc::{AllocError, Global};

impl CloneData {
    /// The number of the first item that breaks its rule, where the segments, the names and the heads are numbered from 0 in this order;
    /// `None` exactly where each keeps its rule. Where the highest id of a segment or a parent of a merge has no name it is the
    /// number of the first head, and where a head is missing how many items there are. `AllocError` only for want of memory.
    pub fn first_broken(&self, alloc: Global) -> Result<Option<u64>, AllocError>
        ensures { IfOk result (λ found. found ≡ first_broken self.now) }
    {
        let segments = self.segments.as_slice();
        let names = self.names.as_slice();
        let heads = self.heads.as_slice();
        let _bound = self.heads.len();
        broken_item(alloc, segments, names, heads)
    }
}

/// The number of the first item that breaks its rule.
fn broken_item(
    alloc: Global,
    segments: &[CloneSegment],
    names: &[KnownName],
    heads: &[Name],
) -> Result<Option<u64>, AllocError>
    requires segments { length segments.now < 2 ^ 32 }
    requires names { length names.now < 2 ^ 32 }
    requires heads { length heads.now < 2 ^ 32 }
    ensures { IfOk result (λ found. found ≡ first_broken (record { segments = segments.now; names = names.now; heads = heads.now })) }
{
    match first_bad_segment(segments) {
        Some(number) => Ok(Some(number as u64)),
        None => later_broken_item(alloc, segments, names, heads),
    }
}

/// The number of the first name or head that breaks its rule.
fn later_broken_item(
    alloc: Global,
    segments: &[CloneSegment],
    names: &[KnownName],
    heads: &[Name],
) -> Result<Option<u64>, AllocError>
    requires segments { length segments.now < 2 ^ 32 }
    requires names { length names.now < 2 ^ 32 }
    requires heads { length heads.now < 2 ^ 32 }
    ensures { IfOk result (λ found. found ≡ broken_name (record { segments = segments.now; names = names.now; heads = heads.now })) }
{
    let named = segments.len() as u64;
    match first_bad_name(alloc, names, end_of_all(segments), named)? {
        Some(number) => Ok(Some(number)),
        None => last_broken_item(alloc, segments, names, heads),
    }
}

/// The number of the first head that breaks its rule, if it isn't that a name is missing.
fn last_broken_item(
    alloc: Global,
    segments: &[CloneSegment],
    names: &[KnownName],
    heads: &[Name],
) -> Result<Option<u64>, AllocError>
    requires segments { length segments.now < 2 ^ 32 }
    requires names { length names.now < 2 ^ 32 }
    requires heads { length heads.now < 2 ^ 32 }
    requires ascend { AscendFrom 0 names.now }
    ensures { IfOk result (λ found. found ≡ broken_head (record { segments = segments.now; names = names.now; heads = heads.now })) }
{
    let headed = segments.len() as u64 + names.len() as u64;
    let end = end_of_all(segments);
    let all = has_needed_names(alloc, segments, names, end)?;
    if !all {
        return Ok(Some(headed));
    }
    let ids = head_ids(alloc, segments, end)?;
    match first_bad_head(names, &ids, heads, headed) {
        Some(number) => Ok(Some(number)),
        None => Ok(missing_head(ids.len(), heads.len(), headed)),
    }
}

/// The number behind all items, where there are fewer heads than have to be.
fn missing_head(wanted: usize, heads: usize, first: u64) -> Option<u64>
    requires { first + heads < 2 ^ 64 }
    ensures { result ≡ first_false (first + heads) (nat_le wanted heads ∷ []) }
{
    if heads < wanted {
        Some(first + heads as u64)
    } else {
        None
    }
}
