//! The names of an answer, as they are lent.

ghost use Rattle.std.specs.Prelude.{◌≡◌, ◌<◌, ◌+◌, ◌^◌, List, IfSome, map, slice_get};
ghost use Rattle.name_map.specs.Added.{Placed};
ghost use Rattle.payload_tables.specs.Bases.{IsBaseOf};
ghost use Rattle.payload_tables.specs.Pending.{HeldRow, HoldsRows};
ghost use Rattle.store_queries.specs.Names.{fetched_name, lent_name, name_in, named_front, names_left, pending_name};
ghost use Rattle.span_set.specs.Down.{ids_left};

use id_groups::{FIRST_OTHER, Id, NameRef};
use lazy_names::Fetched;
use payload_tables::{BaseRef, PendingRows};
use span_set::IdsDown;
use std::marker::Model;

/// The names of the ids of an answer in a session's view, the greatest id first, lent from the log, from the pending rows and from
/// the names that were fetched; up to the first id that has none of these, of which an answer has none. Contracts see the names that
/// are left.
#[derive(Drop)]
pub struct Names<'a> {
    pub(crate) ids: IdsDown<'a>,
    pub(crate) base: BaseRef<'a>,
    pub(crate) pending: &'a PendingRows,
    pub(crate) fetched: &'a Fetched,
    pub(crate) next: u32,
}

impl<'a> Model for Names<'a> {
    ghost use Rattle.std.specs.Prelude.{List, drop, map};
    ghost use Rattle.id_groups.specs.Name.{Name};
    ghost use Rattle.span_set.specs.Down.{ids_left};
    ghost use Rattle.store_queries.specs.Names.{named_front, fetched_name, IsLent};

    ghost Value = { List Name };

    ghost view = { λ names. named_front names.base names.pending.now (drop names.next (map fetched_name names.fetched.now)) (ids_left names.ids) };

    ghost invariant = { λ names. IsLent names.base names.pending.now };
}

/// The name of the pending row with the id.
fn name_of_row<'a>(pending: &'a PendingRows, id: Id) -> Option<NameRef<'a>>
    requires { (rows : List HeldRow) × HoldsRows pending.now rows }
    ensures { lent_name result ≡ pending_name pending.now id }
{
    let place = id.number().checked_sub(FIRST_OTHER + pending.first())?;
    if place >= u64::from(pending.len()) {
        return None;
    }
    Some(pending.name(place as u32))
}

/// The name of an id, which is stored or pending.
fn name_of_id<'a>(base: &BaseRef<'a>, pending: &'a PendingRows, id: Id) -> Option<NameRef<'a>>
    requires base { (added : List Placed) × IsBaseOf base.now added }
    requires pending { (rows : List HeldRow) × HoldsRows pending.now rows }
    ensures { lent_name result ≡ name_in base.now pending.now id }
{
    if let Some(name) = base.name(id) {
        return Some(name);
    }
    name_of_row(pending, id)
}

/// The name at this place of those that were fetched, if there is one.
fn fetched_at<'a>(fetched: &'a Fetched, place: u32) -> Option<NameRef<'a>>
    ensures name { lent_name result ≡ slice_get (map fetched_name fetched.now) place }
    ensures next { IfSome result (λ _. place + 1 < 2 ^ 32) }
{
    if place < fetched.len() {
        Some(fetched.name(place))
    } else {
        None
    }
}

impl<'a> Names<'a> {
    /// The names of these ids.
    pub(crate) fn over(
        ids: IdsDown<'a>,
        base: BaseRef<'a>,
        pending: &'a PendingRows,
        fetched: &'a Fetched,
    ) -> Names<'a>
        requires base { (added : List Placed) × IsBaseOf base added }
        requires pending { (rows : List HeldRow) × HoldsRows pending.now rows }
        ensures { names_left result ≡ named_front base.entry pending.now (map fetched_name fetched.now) (ids_left ids.entry) }
    {
        Names {
            ids,
            base,
            pending,
            fetched,
            next: 0,
        }
    }
}

impl<'a> Iterator for Names<'a> {
    type Item = NameRef<'a>;

    ghost use Rattle.std.specs.Iterator.{YieldsFirstBy, item_count};
    ghost use Rattle.store_queries.specs.Names.{names_left, name_of};

    ghost next_gives = { YieldsFirstBy name_of names_left };

    ghost remaining = { item_count names_left };

    fn next(&mut self) -> Option<NameRef<'a>> {
        let mut ids = self.ids;
        let id = ids.next()?;
        if let Some(name) = name_of_id(&self.base, self.pending, id) {
            self.ids = ids;
            return Some(name);
        }
        let name = fetched_at(self.fetched, self.next)?;
        self.next += 1;
        self.ids = ids;
        Some(name)
    }
}
