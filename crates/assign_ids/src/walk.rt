//! Placing without recursion: an explicit stack of the commits that wait for their parents.

ghost use Rattle.std.specs.Prelude.{◌≡◌, ℕ, ◌<◌, ◌≤◌, ◌^◌, List, [], drop, false, IfOk, OnOk, MatchOption, nat_eq};
ghost use Rattle.id_groups.specs.Lists.{IsIn, is_in};
ghost use Rattle.commit_graph.specs.World.{Row as PlainRow};
ghost use Rattle.assign_ids.specs.Placing.{place as placed, place_all};
ghost use Rattle.assign_ids.specs.Numbers.{AreBelow, HaveOlderParents, others_of, rows_below, order_of};

use crate::order::Order;
use crate::{Node, ParentsOf};
use std::alloc::{AllocError, Global};

/// A commit that waits for its parents: `done` of them are placed, the rest are to be placed from left to right.
///
/// Resuming a frame places the rest of its parents and then its number. Resuming the frames of a stack from the top
/// down gives, at each turn, the order that the recursive definition gives: when a frame is pushed, the one below it
/// counts the pushed number as done, since it is placed by then. Each turn either places the number of the top frame
/// or puts a lower number on top, since a parent is lower than its child; so no number is on the stack twice, and the
/// turns come to an end.
#[derive(Clone, Copy, Drop)]
struct Frame {
    number: u32,
    done: usize,
}

/// A parent that is to be placed next.
#[derive(Clone, Copy, Drop)]
struct Missing {
    number: u32,
    /// How many parents are placed once this one is.
    done: usize,
}

/// The first parent behind the first `done` that isn't placed; `None` where all of these are.
fn next_missing(parents: &[Node], done: usize, order: &Order) -> Option<Missing>
    requires { AreBelow order.now.size (others_of parents.now) }
    ensures { MatchOption result
        ((rows : List (PlainRow ℕ)) → place_all nat_eq rows order.now.numbers (others_of (drop done parents.now)) ≡ order.now.numbers)
        (λ missing. IsIn missing.number (others_of parents.now) × (is_in nat_eq missing.number order.now.numbers ≡ false)
        × ((rows : List (PlainRow ℕ)) → place_all nat_eq rows order.now.numbers (others_of (drop done parents.now))
        ≡ place_all nat_eq rows (placed nat_eq rows order.now.numbers missing.number) (others_of (drop missing.done parents.now)))) }
{
    'parents: for i in done..parents.len() {
        match parents[i] {
            Node::Placed => {}
            Node::Other(number) => {
                if !order.contains(number) {
                    let done = i + 1;
                    return Some(Missing { number, done });
                }
            }
        }
    }
    None
}

/// Places a head behind all that it reaches.
fn place_head<G: ParentsOf>(
    alloc: Global,
    graph: &G,
    order: &mut Order,
    head: u32,
) -> Result<(), AllocError>
    requires parents { HaveOlderParents (G.parents graph.now) }
    requires size { order.old.size ≤ 2 ^ 32 }
    requires head { head < order.old.size }
    ensures size { OnOk result (order.new.size ≡ order.old.size) }
    ensures placed { OnOk result (order.new.numbers
        ≡ placed nat_eq (rows_below (G.parents graph.now) order.old.size) order.old.numbers head) }
{
    if order.contains(head) {
        return Ok(());
    }
    let mut frames = Vec::new(alloc);
    place_missing(&mut frames, graph, order, head)
}

/// Places a head that isn't placed. The frames are none before.
fn place_missing<G: ParentsOf>(
    frames: &mut Vec<Frame>,
    graph: &G,
    order: &mut Order,
    head: u32,
) -> Result<(), AllocError>
    requires parents { HaveOlderParents (G.parents graph.now) }
    requires size { order.old.size ≤ 2 ^ 32 }
    requires head { head < order.old.size }
    requires missing { is_in nat_eq head order.old.numbers ≡ false }
    requires frames { frames.old.items ≡ [] }
    ensures size { OnOk result (order.new.size ≡ order.old.size) }
    ensures placed { OnOk result (order.new.numbers
        ≡ placed nat_eq (rows_below (G.parents graph.now) order.old.size) order.old.numbers head) }
{
    frames.push(Frame {
        number: head,
        done: 0,
    })?;
    'frames: while let Some(Frame { number, done }) = frames.pop() {
        match next_missing(graph.parents_of(number), done, order) {
            Some(missing) => {
                frames.push(Frame {
                    number,
                    done: missing.done,
                })?;
                frames.push(Frame {
                    number: missing.number,
                    done: 0,
                })?;
            }
            None => order.push(number)?,
        }
    }
    Ok(())
}

/// The least number above all heads.
fn size_above(heads: &[u32]) -> usize
    ensures above { AreBelow result heads.now }
    ensures least { (n : ℕ) → AreBelow n heads.now → result ≤ n }
    ensures small { result ≤ 2 ^ 32 }
{
    let mut size = 0;
    'heads: for head in heads {
        size = size.max(*head as usize + 1);
    }
    size
}

/// The order in which these heads move into master, with all that they reach: over the heads from left to right, a
/// number that is there already stays, and any other goes behind its parents, which are placed from left to right.
/// Parents that are in master already are passed over. The graph may have any commits beside those that are reached.
///
/// It takes no more of the machine's stack for a longer history. Its memory and time are linear in the greatest head
/// and in the parents of what is reached.
pub fn place<G: ParentsOf>(alloc: Global, graph: &G, heads: &[u32]) -> Result<Vec<u32>, AllocError>
    requires { HaveOlderParents (G.parents graph.now) }
    ensures { IfOk result (λ order. (n : ℕ) → AreBelow n heads.now → order.items ≡ order_of (G.parents graph.now) n heads.now) }
{
    let mut order = Order::new(alloc, size_above(heads))?;
    'heads: for head in heads {
        place_head(alloc, graph, &mut order, *head)?;
    }
    Ok(order.into_numbers())
}
