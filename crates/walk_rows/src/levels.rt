//! How many look-ups the walks of a ladder take, with levels and without.

ghost use Rattle.std.specs.Prelude.{ℕ};
ghost use Rattle.segment_codec.specs.Table.{IsHeld};
ghost use Rattle.span_set.specs.Members.{IsMember};

use ancestor_query::ancestors;
use common_ancestor::{gca, only};
use flat_segments::FlatFault;
use id_groups::Id;
use range_query::children;
use sample_tables::{LevelSample, Sample, held_ids};
use segment_codec::{SegmentTable, Steps};
use span_set::IdSet;
use std::alloc::{AllocError, Global};
use std::test::Fail;

/// How many commits a ladder has, what is asked of it about which of them, how many ids the answer has, and how many look-ups
/// it takes at most with levels. Without it takes more than twice as many.
type Walked = (u64, Question, &'static [u64], &'static [u64], u64, u64);

const WALKED: [Walked; 7] = [
    (35, Question::Ancestors, &[31], &[], 32, 8),
    (600, Question::Only, &[599], &[3], 596, 200),
    (600, Question::Only, &[3], &[599], 0, 200),
    (600, Question::Gca, &[599, 3], &[], 1, 200),
    (600, Question::Children, &[300], &[], 2, 60),
    (600, Question::Children, &[3, 301, 599], &[], 2, 120),
    (600, Question::Children, &[3], &[], 1, 80),
];

/// What is asked of two sets of commits.
#[derive(Clone, Copy, Debug)]
enum Question {
    Ancestors,
    Children,
    Gca,
    Only,
}

/// The answer about two sets that the table has.
fn answer<T: SegmentTable>(
    alloc: Global,
    table: &T,
    question: Question,
    one: &IdSet,
    other: &IdSet,
    steps: &mut Steps,
) -> Result<IdSet, AllocError>
    requires one { (x : ℕ) → IsMember one.now x → IsHeld (T.flats table.now) x }
    requires other { (x : ℕ) → IsMember other.now x → IsHeld (T.flats table.now) x }
{
    match question {
        Question::Ancestors => ancestors(alloc, table, one, steps),
        Question::Children => children(alloc, table, one, steps),
        Question::Gca => gca(alloc, table, one, steps),
        Question::Only => only(alloc, table, one, other, steps),
    }
}

/// The answer about the commits of two lists, how many ids it has, and how many look-ups it took.
fn ask<T: SegmentTable>(
    alloc: Global,
    table: &T,
    question: Question,
    first: &[Id],
    second: &[Id],
) -> Result<(u64, u64), AllocError> {
    let one = held_ids(alloc, table, first)?;
    let other = held_ids(alloc, table, second)?;
    let mut steps = Steps::new();
    let set = answer(alloc, table, question, &one, &other, &mut steps)?;
    Ok((set.count(), steps.taken()))
}

fn ids_of(alloc: Global, numbers: &[u64]) -> Result<Vec<Id>, AllocError> {
    let mut ids = Vec::new(alloc);
    for number in numbers {
        ids.push(Id::master(*number % (1 << 32)))?;
    }
    Ok(ids)
}

/// How many ids the answer has, and how many look-ups it took.
fn walk<T: SegmentTable>(
    alloc: Global,
    table: &T,
    walked: &Walked,
) -> Result<(u64, u64), AllocError> {
    let (_, question, first, second, _, _) = *walked;
    let one = ids_of(alloc, first)?;
    let other = ids_of(alloc, second)?;
    ask(alloc, table, question, &one, &other)
}

/// The same with levels and without.
fn walk_both(
    alloc: Global,
    sample: &LevelSample,
    walked: &Walked,
) -> Result<[(u64, u64); 2], AllocError> {
    let with = walk(alloc, &sample.view(sample.count()), walked)?;
    let without = walk(alloc, &sample.flat(sample.count()), walked)?;
    Ok([with, without])
}

/// Adds commits of one segment with these parents, where they may come.
pub(crate) fn push(sample: &mut Sample, parents: &[Id], count: u64) -> Result<(), AllocError> {
    if sample.may_push(parents, count) {
        sample.push(parents, count)?;
    }
    Ok(())
}

/// Adds a rung of the ladder: an even commit on the two before it, and the one on that, if there is one.
fn push_rung(sample: &mut Sample, low: u64, count: u64) -> Result<(), AllocError> {
    let left = count.saturating_sub(low).min(2);
    if low < 2 || low > 1 << 20 {
        return push(sample, &[], left);
    }
    push(sample, &[Id::master(low - 2), Id::master(low - 1)], left)
}

/// The ladder of so many commits.
fn ladder(alloc: Global, count: u64) -> Result<Sample, AllocError> {
    let mut sample = Sample::empty(alloc);
    for low in 0..count {
        if low % 2 == 0 {
            push_rung(&mut sample, low, count)?;
        }
    }
    Ok(sample)
}

/// The sample with its levels.
pub(crate) fn with_levels(alloc: Global, sample: &Sample) -> Result<LevelSample, FlatFault> {
    let bytes = Vec::from_slice(alloc, sample.bytes())?;
    let len = bytes.len();
    LevelSample::over(alloc, bytes, false).add(len)
}

/// The ladder with its levels.
fn leveled(alloc: Global, count: u64) -> Result<LevelSample, FlatFault> {
    with_levels(alloc, &ladder(alloc, count)?)
}

/// How many ids both answers of the ladder have, and how many look-ups they took.
fn walk_ladder(alloc: Global, walked: &Walked) -> Result<[(u64, u64); 2], FlatFault> {
    let sample = leveled(alloc, walked.0)?;
    Ok(walk_both(alloc, &sample, walked)?)
}

/// Whether both answers have the ids that are wanted, and the one with levels alone took few look-ups.
fn is_as_wanted(walked: &Walked, both: &[(u64, u64); 2]) -> bool {
    let (_, _, _, _, ids, most) = *walked;
    let [with, without] = *both;
    with.0 == ids && with.1 <= most && without.0 == ids && without.1 > most.saturating_mul(2)
}

/// The place of the first walk that isn't as wanted.
fn first_wrong(alloc: Global) -> Result<Option<usize>, FlatFault> {
    for (place, walked) in WALKED.iter().enumerate() {
        if !is_as_wanted(walked, &walk_ladder(alloc, walked)?) {
            return Ok(Some(place));
        }
    }
    Ok(None)
}

#[test]
fn a_ladder_is_walked_in_a_few_steps(rt: HostRuntime) -> Result<(), Fail> {
    assert_eq!(rt; first_wrong(rt.alloc())?, None);
    Ok(())
}
