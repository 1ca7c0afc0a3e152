//! The parents of the commits outside master, lent from a table as they are spelled there.

ghost use Rattle.std.specs.Prelude.{◌≡◌, ◌<◌, ◌≤◌, ◌+◌, ◌-◌, ◌^◌, ℕ, List, [], Some, slice_index_or, IfOk, OnOk};
ghost use Rattle.id_groups.specs.Id.{other_id};
ghost use Rattle.segment_codec.specs.Lent.{segment_of};
ghost use Rattle.segment_codec.specs.Table.{parents_at, parents_in};
ghost use Rattle.change_parts.specs.Rows.{table_rows};
ghost use Rattle.strip_plan.specs.declared.lent.Row.TheVariants.{Root, Follows};
ghost use Rattle.strip_plan.specs.LentRows.{lent_row, lent_rows, AreLent};

use change_parts::end_of;
use id_groups::{FIRST_OTHER, Id};
use segment_codec::{Parents, SegmentRef, SegmentTable, Steps};
use std::alloc::{AllocError, Global};
use std::marker::Model;

/// The parents of a number.
#[derive(Clone, Copy, Drop)]
pub(crate) enum Row<'a> {
    /// None.
    Root,
    /// The number before it alone.
    Follows,
    /// Those of its segment, which begins with it.
    Begins(Parents<'a>),
}

/// The id before that of the number k.
pub(crate) fn before(k: u32) -> Id
    ensures { result ≡ other_id k - 1 }
{
    Id::from_number(FIRST_OTHER + u64::from(k) - 1)
}

/// The row of the number k; that of a root where there is none.
fn row_at<'a>(rows: &[Row<'a>], k: u32) -> Row<'a>
    ensures { result ≡ slice_index_or rows.now k Root }
{
    match rows.get(k as usize) {
        Some(row) => *row,
        None => Row::Root,
    }
}

/// The parents of each number, in order. Contracts see a list for each.
#[derive(Drop)]
pub(crate) struct LentGraph<'a> {
    rows: Vec<Row<'a>>,
}

impl<'a> Model for LentGraph<'a> {
    ghost use Rattle.std.specs.Prelude.{ℕ, List};
    ghost use Rattle.strip_plan.specs.declared.lent.Row.TheVariants.{Root, Follows};
    ghost use Rattle.strip_plan.specs.LentRows.{lent_rows};

    ghost Value = { List (List ℕ) };

    ghost view = { λ g. lent_rows 0 g.rows.items };
}

impl<'a> LentGraph<'a> {
    /// These rows.
    fn over(rows: Vec<Row<'a>>) -> LentGraph<'a>
        ensures { result ≡ lent_rows 0 rows.entry.items }
    {
        LentGraph { rows }
    }

    /// The row of the number k; that of a root for a number that it doesn't have.
    pub(crate) fn row(&self, k: u32) -> Row<'a>
        ensures { lent_row k result ≡ slice_index_or self.now k [] }
    {
        row_at(&self.rows, k)
    }
}

/// The row of an id of the segment.
fn first_row<'a>(segment: SegmentRef<'a>, id: Id) -> Row<'a>
    requires { 2 ^ 56 ≤ id }
    ensures { (k : ℕ) → id ≡ other_id k → lent_row k result ≡ parents_in (Some (segment_of segment.entry)) id }
{
    if segment.low().number() == id.number() {
        return Row::Begins(segment.parents());
    }
    Row::Follows
}

/// The row of the number k, and the number behind those whose ids are of the same segment, at most n.
fn row_from<'a, T: SegmentTable>(table: &'a T, k: u32, n: u32, steps: &mut Steps) -> (Row<'a>, u32)
    requires { k < n }
    ensures next { (k < result.1) × (result.1 ≤ n) }
    ensures first { lent_row k result.0 ≡ parents_at (T.flats table.now) (other_id k) }
    ensures behind { (j : ℕ) → k < j → j < result.1 → lent_row j Follows ≡ parents_at (T.flats table.now) (other_id j) }
{
    let id = Id::other(u64::from(k));
    let Some(segment) = table.flat(id, steps) else {
        return (Row::Root, k + 1);
    };
    let end = end_of(segment.high(), n);
    (first_row(segment, id), end)
}

/// Adds the rows of k and of the numbers behind it whose ids are of the same segment, below n, and answers the number
/// behind them.
fn add_segment<'a, T: SegmentTable>(
    table: &'a T,
    rows: &mut Vec<Row<'a>>,
    k: u32,
    n: u32,
    steps: &mut Steps,
) -> Result<u32, AllocError>
    requires { k < n }
    ensures next { IfOk result (λ next. (k < next) × (next ≤ n)) }
    ensures rows { IfOk result (λ next. AreLent (T.flats table.now) rows.old.items k → AreLent (T.flats table.now) rows.new.items next) }
{
    let (row, end) = row_from(table, k, n, steps);
    rows.push(row)?;
    'rows: for _j in k + 1..end {
        rows.push(Row::Follows)?;
    }
    Ok(end)
}

/// Adds the rows of the numbers below n, segment by segment. There are none before.
fn read_rows<'a, T: SegmentTable>(
    table: &'a T,
    rows: &mut Vec<Row<'a>>,
    n: u32,
) -> Result<(), AllocError>
    requires { rows.old.items ≡ [] }
    ensures { OnOk result (AreLent (T.flats table.now) rows.new.items n) }
{
    let mut steps = Steps::new();
    let mut k = 0;
    'rows: while k < n {
        k = add_segment(table, rows, k, n, &mut steps)?;
        steps.set_near(steps.near().saturating_add(2));
    }
    Ok(())
}

/// The parents of the other ids of the table, of which there are n. None is read.
pub(crate) fn lent_graph<'a, T: SegmentTable>(
    alloc: Global,
    table: &'a T,
    n: u32,
) -> Result<LentGraph<'a>, AllocError>
    ensures { IfOk result (λ graph. graph ≡ table_rows (T.flats table.now) n) }
{
    let mut rows = Vec::with_capacity(alloc, n as usize)?;
    read_rows(table, &mut rows, n)?;
    Ok(LentGraph::over(rows))
}
