//! The bytes of the bundle of a stored master.

ghost use Rattle.std.specs.Prelude.{◌≡◌, ◌≤◌, ℕ, true, false, List, [], length, IfOk, MatchOption, MatchResult, OnOk};
ghost use Rattle.id_groups.specs.Name.{Name as NameBytes};
ghost use Rattle.commit_graph.specs.World.{World, names_of};
ghost use Rattle.segment_codec.specs.Record.{Segment, IsSegment};
ghost use Rattle.segment_codec.specs.Lent.{segment_of, parents_left};
ghost use Rattle.batch_codec.specs.Grammar.{AreFlat};
ghost use Rattle.bundle_codec.specs.Bundle.{Contents, bundle_of};
ghost use Rattle.bundle_codec.specs.Building.{IsBuilt, no_contents, with_segment};
ghost use Rattle.change_rules.specs.Lazy.{has_lazy};
ghost use Rattle.step_rules.specs.State.{Stored};
ghost use Rattle.dag_store.specs.Stands.{Stands};
ghost use Rattle.dag_store.specs.Whole.{IsWhole, AreSegments, master_flats};

use bundle_codec::{BundleBuild, worlds_have_bundles};
use dag_store::{Segments, Store, Whole};
use id_groups::Id;
use segment_codec::{Parents, SegmentRef};
use std::alloc::{AllocError, Global};

/// Makes the list that of these ids.
fn take_ids(ids: &mut Vec<Id>, parents: Parents<'_>) -> Result<(), AllocError>
    ensures { OnOk result (ids.new.items ≡ parents_left parents.entry) }
{
    ids.clear();
    'parents: for id in parents {
        ids.push(id)?;
    }
    Ok(())
}

/// Adds a flat segment. Its parents go through a list.
fn put_segment(
    build: &mut BundleBuild,
    segment: SegmentRef<'_>,
    ids: &mut Vec<Id>,
) -> Result<(), AllocError>
    requires whole { IsSegment (segment_of segment) }
    requires flat { (segment_of segment).level ≡ 0 }
    ensures ok { OnOk result ((c : Contents) → IsBuilt build.old c → IsBuilt build.new (with_segment c (segment_of segment.entry))) }
    ensures rows { build.new.rows ≡ build.old.rows }
{
    take_ids(ids, segment.parents())?;
    build.segment(segment.low(), segment.high(), ids)
}

/// Adds these segments, so many, where nothing was added.
fn put_segments(
    alloc: Global,
    build: &mut BundleBuild,
    segments: &Segments<'_>,
    count: u32,
) -> Result<(), AllocError>
    requires empty { IsBuilt build.old no_contents }
    requires segments { (w : World NameBytes) × AreSegments segments.now w × (count ≡ length (master_flats w)) × AreFlat (master_flats w) }
    ensures ok { OnOk result ((w : World NameBytes) → AreSegments segments.now w → count ≡ length (master_flats w)
        → IsBuilt build.new (record { segments = master_flats w; names = [] })) }
    ensures rows { build.new.rows ≡ build.old.rows }
{
    let mut ids = Vec::new(alloc);
    'places: for k in 0..count {
        let segment = segments.segment(k);
        put_segment(build, segment, &mut ids)?;
    }
    Ok(())
}

/// Adds the names of these rows, so many.
fn put_names(build: &mut BundleBuild, whole: &Whole<'_>, rows: u64) -> Result<(), AllocError>
    requires { (w : World NameBytes) × IsWhole whole.now w × (rows ≡ length w.master) × (rows ≤ 16777216) }
    ensures ok { OnOk result ((w : World NameBytes) (segments : List Segment) → IsWhole whole.now w → rows ≡ length w.master → IsBuilt build.old (record { segments = segments; names = [] })
        → IsBuilt build.new (record { segments = segments; names = names_of w.master })) }
    ensures rows { build.new.rows ≡ build.old.rows }
{
    'places: for place in 0..rows {
        let name = whole.name(Id::master(place));
        build.name(name)?;
    }
    Ok(())
}

/// The bytes of the bundle of a stored master.
pub fn bundle_of(alloc: Global, whole: &Whole<'_>) -> Result<Vec<u8>, AllocError>
    requires { (w : World NameBytes) × IsWhole whole.now w }
    ensures { IfOk result (λ bytes. (w : World NameBytes) → IsWhole whole.now w → bytes.items ≡ bundle_of w.master) }
{
    worlds_have_bundles();
    let rows = whole.rows();
    let mut build = BundleBuild::new(alloc, rows as u32)?;
    put_segments(alloc, &mut build, &whole.segments(), whole.segment_count())?;
    put_names(&mut build, whole, rows)?;
    build.finish()
}

/// The bytes of the bundle of a store's stored master; `None` exactly where one of its commits has no stored name.
pub fn bundle_of_store(alloc: Global, store: &Store) -> Result<Option<Vec<u8>>, AllocError>
    ensures { (began : ℕ) (st : Stored) → Stands began store.now st → MatchResult result
        (λ found. MatchOption found (has_lazy st.payloads st.stored ≡ true) (λ bytes. (has_lazy st.payloads st.stored ≡ false) × (bytes.items ≡ bundle_of st.stored.master)))
        (λ _. has_lazy st.payloads st.stored ≡ false) }
{
    let Some(whole) = store.whole() else {
        return Ok(None);
    };
    let bytes = bundle_of(alloc, &whole)?;
    Ok(Some(bytes))
}
