//! The answer of an expression over a table of segments.

ghost use Rattle.std.specs.Prelude.{min, ◌-◌, ◌≡◌, ℕ, ◌+◌, ◌*◌, ◌≤◌, ◌^◌, ◌↔◌, [], ◌∷◌, IfOk, OnOk, length};
ghost use Rattle.id_groups.specs.Lists.{IsIn};
ghost use Rattle.id_groups.specs.Name.{Name as NameBytes};
ghost use Rattle.segment_codec.specs.Table.{IsHeld};
ghost use Rattle.span_set.specs.Members.{IsMember, IsCanonical, ids_of};
ghost use Rattle.ancestor_query.specs.Graph.{table_graph};
ghost use Rattle.ancestor_query.specs.Counts.{count_met, EndsWhole};
ghost use Rattle.set_expr.specs.declared.words.Call.TheVariants as calls;
ghost use Rattle.set_expr.specs.Expr.{One, Of, commits_in};
ghost use Rattle.set_expr.specs.Ids.{with_ids};
ghost use Rattle.set_expr.specs.Meaning.{IsMember as IsMeant};
ghost use Rattle.set_expr.specs.Tree.{tree_in};
ghost use Rattle.set_expr.specs.Whole.{tree_of};

use crate::forms::{made_of, named_set, single, up};
use crate::pairs::{made_of_pair, paired};
use crate::unions::{ancestors_of, is_of_ancestors, is_of_names, set_of};
use id_groups::Id;
use segment_codec::{SegmentTable, Steps};
use set_expr::{Expr, Tree};
use span_set::IdSet;
use std::alloc::{AllocError, Global};

/// The answer of an expression. `eval` alone makes one.
#[derive(Drop)]
pub struct Answer {
    set: IdSet,
    steps: u64,
}

impl Answer {
    /// The ids of the expression's members.
    pub fn set(&self) -> &IdSet
        ensures { result.now ≡ self.now.set }
    {
        &self.set
    }

    /// How many members there are.
    pub fn count(&self) -> u64
        ensures { result ≡ length (ids_of self.now.set) }
    {
        self.set.count()
    }

    /// How many look-ups in the table the answer took.
    pub fn steps(&self) -> u64
        ensures { result ≡ self.now.steps }
    {
        self.steps
    }
}

/// The members of the expression over the table's ids. `ids` are those of the names that stand in the expression, in text
/// order, each an id of the table. For `ancestors` of one name it takes at most eight look-ups more than eight for each flat
/// segment that has a member, and at most eight where a segment without parents, of any level, ends at the name's id.
/// `AllocError` only for want of memory.
pub fn eval<T: SegmentTable>(
    alloc: Global,
    table: &T,
    expr: &Expr,
    ids: &[Id],
) -> Result<Answer, AllocError>
    requires count { length ids.now ≡ length (commits_in (tree_of expr.now)) }
    requires held { (x : ℕ) → IsIn x ids.now → IsHeld (T.flats table.now) x }
    ensures members { IfOk result (λ a. (x : ℕ) → IsMember a.set x ↔ IsMeant (table_graph (T.flats table.now)) (with_ids (tree_of expr.now) ids.now) x) }
    ensures few { (name : NameBytes) → tree_of expr.now ≡ Of calls.Ancestors (One name) → IfOk result (λ a. a.steps ≤ 8 * (1 + count_met a.set (T.flats table.now))) }
    ensures looked { (name : NameBytes) → tree_of expr.now ≡ Of calls.Ancestors (One name) → IfOk result (λ a. (x : ℕ) → IsMember a.set x → 8 ≤ a.steps) }
    ensures one { (name : NameBytes) (x : ℕ) → tree_of expr.now ≡ Of calls.Ancestors (One name) → ids.now ≡ x ∷ [] → EndsWhole (T.ending_at table.now) x → IfOk result (λ a. a.steps ≤ 8) }
{
    let mut steps = Steps::new();
    answer_with(alloc, table, expr, ids, &mut steps)
}

/// The answer of the expression, with what the count of look-ups stands at. `AllocError` only for want of memory.
fn answer_with<T: SegmentTable>(
    alloc: Global,
    table: &T,
    expr: &Expr,
    ids: &[Id],
    steps: &mut Steps,
) -> Result<Answer, AllocError>
    requires count { length ids.now ≡ length (commits_in (tree_of expr.now)) }
    requires held { (x : ℕ) → IsIn x ids.now → IsHeld (T.flats table.now) x }
    ensures members { IfOk result (λ a. (x : ℕ) → IsMember a.set x ↔ IsMeant (table_graph (T.flats table.now)) (with_ids (tree_of expr.now) ids.now) x) }
    ensures counted { IfOk result (λ a. a.steps ≡ steps.new.taken) }
    ensures few { (name : NameBytes) → tree_of expr.now ≡ Of calls.Ancestors (One name) → IfOk result (λ a. steps.new.taken ≤ steps.old.taken + 8 * (1 + count_met a.set (T.flats table.now))) }
    ensures looked { (name : NameBytes) → tree_of expr.now ≡ Of calls.Ancestors (One name) → IfOk result (λ a. (x : ℕ) → IsMember a.set x → min (steps.old.taken + 8) (2 ^ 64 - 1) ≤ steps.new.taken) }
    ensures one { (name : NameBytes) (x : ℕ) → tree_of expr.now ≡ Of calls.Ancestors (One name) → ids.now ≡ x ∷ [] → EndsWhole (T.ending_at table.now) x → OnOk result (steps.new.taken ≤ steps.old.taken + 8) }
{
    let set = members_of(alloc, table, expr.tree(), ids, steps)?;
    Ok(Answer {
        set,
        steps: steps.taken(),
    })
}

/// The members of the set that the tree means. It takes back nothing that `steps` counted. `AllocError` only for want of
/// memory.
fn members_of<T: SegmentTable>(
    alloc: Global,
    table: &T,
    tree: &Tree,
    ids: &[Id],
    steps: &mut Steps,
) -> Result<IdSet, AllocError>
    requires few { length (commits_in (tree_in tree.now)) ≤ 256 }
    requires count { length ids.now ≡ length (commits_in (tree_in tree.now)) }
    requires held { (x : ℕ) → IsIn x ids.now → IsHeld (T.flats table.now) x }
    ensures members { IfOk result (λ r. (x : ℕ) → IsMember r x ↔ IsMeant (table_graph (T.flats table.now)) (with_ids (tree_in tree.now) ids.now) x) }
    ensures canonical { IfOk result IsCanonical }
    ensures counted { min steps.old.taken (2 ^ 64 - 1) ≤ steps.new.taken }
    ensures quiet { (name : NameBytes) → tree_in tree.now ≡ One name → OnOk result (steps.new.taken ≡ steps.old.taken) }
    ensures few { (name : NameBytes) → tree_in tree.now ≡ Of calls.Ancestors (One name) → IfOk result (λ r. steps.new.taken ≤ steps.old.taken + 8 * (1 + count_met r (T.flats table.now))) }
    ensures looked { (name : NameBytes) → tree_in tree.now ≡ Of calls.Ancestors (One name) → IfOk result (λ r. (x : ℕ) → IsMember r x → min (steps.old.taken + 8) (2 ^ 64 - 1) ≤ steps.new.taken) }
    ensures one { (name : NameBytes) (x : ℕ) → tree_in tree.now ≡ Of calls.Ancestors (One name) → ids.now ≡ x ∷ [] → EndsWhole (T.ending_at table.now) x → OnOk result (steps.new.taken ≤ steps.old.taken + 8) }
{
    match tree {
        Tree::One(_) => single(alloc, ids[0]),
        Tree::Named(word) => named_set(alloc, table, *word),
        Tree::Of(call, set) => {
            let members = members_of(alloc, table, set, ids, steps)?;
            made_of(alloc, table, *call, &members, steps)
        }
        Tree::OfTwo(call, first, second) => {
            if is_of_names(tree) {
                return set_of(alloc, ids);
            }
            if is_of_ancestors(tree) {
                return ancestors_of(alloc, table, ids, steps);
            }
            let (pairing, front, back) = paired(*call, first, second);
            let (here, behind) = ids.split_at(front.name_count());
            let one = members_of(alloc, table, front, here, steps)?;
            let other = members_of(alloc, table, back, behind, steps)?;
            made_of_pair(alloc, table, pairing, &one, &other, steps)
        }
        Tree::Up(_, n) => up(alloc, table, ids[0], *n, steps),
        Tree::Top(set, n) => {
            let members = members_of(alloc, table, set, ids, steps)?;
            members.take_greatest(alloc, *n)
        }
    }
}
