//! Small histories, drawn as tables: the parents of the number 0, of the number 1, and so on.

ghost use Rattle.std.specs.Prelude.{◌≤◌, IsTrue, [], slice_index_or};
ghost use Rattle.assign_ids.specs.Numbers.{AreBelow, HaveOlderParents, others_of};

use assign_ids::Node::{Other, Placed};
use assign_ids::{Node, ParentsOf, place};
use std::alloc::Global;
use std::process::Abort;
use std::test::Fail;

/// Rows of so many parents; those that a row lacks are drawn as placed, since these are passed over.
#[derive(Clone, Copy, Drop)]
struct Drawn<'a, const WIDTH: usize> {
    rows: &'a [[Node; WIDTH]],
    ghost narrow: { WIDTH ≤ 8 },
}

impl<'a, const WIDTH: usize> ParentsOf for Drawn<'a, WIDTH> {
    ghost use Rattle.std.specs.Prelude.{[], slice_index_or};

    ghost parents = { λ drawn k. slice_index_or drawn.rows.now k [] };

    fn parents_of(&self, k: u32) -> &[Node] {
        match self.rows.get(k as usize) {
            Some(parents) => parents.as_slice(),
            None => &[],
        }
    }
}

/// Whether each parent has a number below this one.
fn are_below(number: usize, parents: &[Node]) -> bool
    ensures { IsTrue result → AreBelow number (others_of parents.now) }
{
    'parents: for i in 0..parents.len() {
        match parents[i] {
            Placed => {}
            Other(parent) => {
                if parent as usize >= number {
                    return false;
                }
            }
        }
    }
    true
}

/// Whether each parent is drawn before its child.
fn are_older<const WIDTH: usize>(rows: &[[Node; WIDTH]]) -> bool
    ensures { IsTrue result → HaveOlderParents (λ k. slice_index_or rows.now k []) }
{
    'rows: for number in 0..rows.len() {
        if !are_below(number, rows[number].as_slice()) {
            return false;
        }
    }
    true
}

/// Some heads, and the order that they give.
#[derive(Clone, Copy, Drop)]
struct Case<'a> {
    heads: &'a [u32],
    order: &'a [u32],
}

/// Whether the heads of the case give its order.
fn gives<const WIDTH: usize>(
    alloc: Global,
    drawn: &Drawn<'_, WIDTH>,
    case: Case<'_>,
) -> Result<bool, Fail>
    requires { HaveOlderParents (λ k. slice_index_or drawn.now.rows.now k []) }
{
    let order = place(alloc, drawn, case.heads)?;
    Ok(order.as_slice() == case.order)
}

fn check<R: Abort, const WIDTH: usize>(
    rt: &R,
    alloc: Global,
    rows: &[[Node; WIDTH]],
    cases: &[Case],
) -> Result<(), Fail>
    requires { WIDTH ≤ 8 }
{
    assert!(rt; are_older(rows));
    let drawn = Drawn { rows };
    for case in cases {
        assert!(rt; gives(alloc, &drawn, *case)?);
    }
    Ok(())
}

// 0 ── 1 ── 2 ──────── 5
//       ╲            ╱
//        3 ──── 4 ──╯
const DAY: [[Node; 2]; 6] = [
    [Placed, Placed],
    [Other(0), Placed],
    [Other(1), Placed],
    [Other(1), Placed],
    [Other(3), Placed],
    [Other(2), Other(4)],
];

// 0 and 1 are the sides, 2 and 3 merge them in both ways, and 4 merges the merges.
const CRISS_CROSS: [[Node; 2]; 5] = [
    [Placed, Placed],
    [Placed, Placed],
    [Other(0), Other(1)],
    [Other(1), Other(0)],
    [Other(3), Other(2)],
];

const DAY_CASES: [Case; 6] = [
    Case {
        heads: &[],
        order: &[],
    },
    Case {
        heads: &[5],
        order: &[0, 1, 2, 3, 4, 5],
    },
    // The second side of the merge is there before the first.
    Case {
        heads: &[4, 5],
        order: &[0, 1, 3, 4, 2, 5],
    },
    // A head that another one reaches, before it and behind it.
    Case {
        heads: &[2, 1],
        order: &[0, 1, 2],
    },
    Case {
        heads: &[1, 2],
        order: &[0, 1, 2],
    },
    Case {
        heads: &[3, 3],
        order: &[0, 1, 3],
    },
];

#[test]
fn merges_move_side_by_side(rt: HostRuntime) -> Result<(), Fail> {
    check(&rt, rt.alloc(), &DAY, &DAY_CASES)?;
    check(
        &rt,
        rt.alloc(),
        &CRISS_CROSS,
        &[
            Case {
                heads: &[4],
                order: &[1, 0, 3, 2, 4],
            },
            Case {
                heads: &[2, 3],
                order: &[0, 1, 2, 3],
            },
            Case {
                heads: &[3, 2],
                order: &[1, 0, 3, 2],
            },
        ],
    )
}

#[test]
fn eight_parents_move_from_left_to_right(rt: HostRuntime) -> Result<(), Fail> {
    let mut rows = [[Placed; 8]; 9];
    rows[8] = [
        Other(7),
        Other(0),
        Other(6),
        Other(1),
        Other(5),
        Other(2),
        Other(4),
        Other(3),
    ];
    check(
        &rt,
        rt.alloc(),
        &rows,
        &[Case {
            heads: &[8],
            order: &[7, 0, 6, 1, 5, 2, 4, 3, 8],
        }],
    )
}
