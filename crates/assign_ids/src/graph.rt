//! The commits that are to be placed, by numbers, and their parents.

ghost use Rattle.std.specs.Prelude.{◌≡◌, ℕ, List};

/// A parent of a commit.
#[derive(Clone, Copy, Debug, PartialEq, Eq, Drop)]
pub enum Node {
    /// It is in master already.
    Placed,
    /// It is the commit of this number, which isn't in master yet.
    Other(u32),
}

/// Commits that aren't in master, each known by a number.
pub trait ParentsOf {
    ghost use Rattle.assign_ids.specs.declared.graph.Node.{Node};

    /// The parents of each number, in order. A number that is no commit's has none.
    ghost parents: { Self → ℕ → List Node };

    /// The parents of the commit `k`, in order.
    fn parents_of(&self, k: u32) -> &[Node]
        ensures { result.now ≡ parents self.now k };
}
