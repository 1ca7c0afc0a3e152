//! Texts that spell an expression, and texts that spell none.

use id_groups::Name;
use set_expr::{Call, Expr, ExprFault, PairCall, Tree, Word};
use std::alloc::{AllocError, Global};
use std::test::Fail;

/// Texts of expressions, and the last bytes of the names that stand in them, from left to right.
const EXPRESSIONS: [(&[u8], &[u8]); 15] = [
    (b"all", &[]),
    (b"master", &[]),
    (b"others", &[]),
    (b"00000000000000000000000000000000000000a1", &[0xa1]),
    (b"00000000000000000000000000000000000000A1", &[0xa1]),
    (b"parents(children(heads(roots(all))))", &[]),
    (b"tips(merges(common(gca(master))))", &[]),
    (b"line(line(all))", &[]),
    (
        b"ancestors(descendants(00000000000000000000000000000000000000A1))",
        &[0xa1],
    ),
    (
        b"range(00000000000000000000000000000000000000c1,only(00000000000000000000000000000000000000a1,00000000000000000000000000000000000000b1))",
        &[0xc1, 0xa1, 0xb1],
    ),
    (
        b"minus(inter(00000000000000000000000000000000000000a1,all),union(others,00000000000000000000000000000000000000a1))",
        &[0xa1, 0xa1],
    ),
    (b"up(00000000000000000000000000000000000000b1,0)", &[0xb1]),
    (
        b"up(00000000000000000000000000000000000000b1,18446744073709551615)",
        &[0xb1],
    ),
    (b"top(all,0)", &[]),
    (
        b"top(top(00000000000000000000000000000000000000b1,10),18446744073709551615)",
        &[0xb1],
    ),
];

/// Texts that spell none.
const OTHERS: [&[u8]; 37] = [
    b"",
    b"All",
    b"all,all",
    b"all ",
    b" all",
    b"all)",
    b"(all)",
    b"all()",
    b"all(all)",
    b"parents",
    b"parents()",
    b"parents(all",
    b"parents(all))",
    b"parents(all)all",
    b"parents(all)(all)",
    b"parents( all)",
    b"parents(all,all)",
    b"parentsall)",
    b"union(all)",
    b"union(all,)",
    b"union(,all)",
    b"union(all,all,all)",
    b"union(all,all",
    b"0000000000000000000000000000000000000a1",
    b"000000000000000000000000000000000000000a1",
    b"00000000000000000000000000000000000000g1",
    b"up(all,0)",
    b"up(00000000000000000000000000000000000000a1)",
    b"up(00000000000000000000000000000000000000a1,)",
    b"up(00000000000000000000000000000000000000a1,+1)",
    b"up(00000000000000000000000000000000000000a1,01)",
    b"up(00000000000000000000000000000000000000a1,00)",
    b"up(00000000000000000000000000000000000000a1,18446744073709551616)",
    b"top(all,all)",
    b"top(1,all)",
    b"top(all,1)1",
    b"0",
];

/// `all` in so many calls, each of two sets of which the other is `all`.
fn nested(alloc: Global, calls: u32) -> Result<Vec<u8>, AllocError> {
    let mut text = Vec::new(alloc);
    for _call in 0..calls {
        text.extend_from_slice(b"union(all,")?;
    }
    text.extend_from_slice(b"all")?;
    for _call in 0..calls {
        text.push(b')')?;
    }
    Ok(text)
}

/// The union of an expression and itself.
fn doubled(alloc: Global, text: &[u8]) -> Result<Vec<u8>, AllocError> {
    let mut twice = Vec::from_slice(alloc, b"union(")?;
    for part in [text, b",", text, b")"] {
        twice.extend_from_slice(part)?;
    }
    Ok(twice)
}

/// An expression with so many calls of one set around it.
fn called(alloc: Global, text: &[u8], calls: u32) -> Result<Vec<u8>, AllocError> {
    let mut whole = Vec::new(alloc);
    for _call in 0..calls {
        whole.extend_from_slice(b"heads(")?;
    }
    whole.extend_from_slice(text)?;
    for _call in 0..calls {
        whole.push(b')')?;
    }
    Ok(whole)
}

/// An expression of 255 nodes, unions of unions, with so many calls of one set around it.
fn wide_in(alloc: Global, calls: u32) -> Result<Vec<u8>, AllocError> {
    let mut text = Vec::from_slice(alloc, b"all")?;
    for _doubling in 0..7 {
        text = doubled(alloc, &text)?;
    }
    called(alloc, &text, calls)
}

fn is_refused(alloc: Global, text: &[u8]) -> bool {
    matches!(Expr::parse(alloc, text), Err(ExprFault::Syntax))
}

/// The last bytes of the names in the expression, from left to right.
fn last_bytes(alloc: Global, expr: &Expr) -> Result<Vec<u8>, AllocError> {
    let mut last = Vec::new(alloc);
    for k in 0..expr.name_count() {
        last.push(expr.name_at(k).lend().bytes[19])?;
    }
    Ok(last)
}

/// The same of the expression that a text spells.
fn named_in(alloc: Global, text: &[u8]) -> Result<Vec<u8>, Fail> {
    let expr = Expr::parse(alloc, text)?;
    Ok(last_bytes(alloc, &expr)?)
}

#[test]
fn the_names_come_in_text_order(rt: HostRuntime) -> Result<(), Fail> {
    for (text, last) in &EXPRESSIONS {
        let found = named_in(rt.alloc(), text)?;
        assert_eq!(rt; found.as_slice(), *last);
    }
    Ok(())
}

#[test]
fn other_texts_are_refused(rt: HostRuntime) {
    for text in &OTHERS {
        assert!(rt; is_refused(rt.alloc(), text));
    }
}

#[test]
fn calls_stand_in_one_another_up_to_depth_32(rt: HostRuntime) -> Result<(), Fail> {
    for (calls, refused) in [(30, false), (31, false), (32, true)] {
        let text = nested(rt.alloc(), calls)?;
        assert_eq!(rt; is_refused(rt.alloc(), &text), refused);
    }
    Ok(())
}

#[test]
fn an_expression_has_up_to_256_nodes(rt: HostRuntime) -> Result<(), Fail> {
    for (calls, refused) in [(0, false), (1, false), (2, true)] {
        let text = wide_in(rt.alloc(), calls)?;
        assert_eq!(rt; is_refused(rt.alloc(), &text), refused);
    }
    Ok(())
}

/// Whether the tree is that of `top(parents(others),7)`.
fn is_greatest_of_parents(tree: &Tree) -> bool {
    let Tree::Top(set, 7) = tree else {
        return false;
    };
    let Tree::Of(Call::Parents, word) = &**set else {
        return false;
    };
    matches!(&**word, Tree::Named(Word::Others))
}

/// Whether the tree is that of the text below, whose name this is.
fn is_as_spelled(tree: &Tree, name: &Name) -> bool {
    let Tree::OfTwo(PairCall::Only, first, second) = tree else {
        return false;
    };
    matches!(&**second, Tree::Up(up, 3) if up == name) && is_greatest_of_parents(first)
}

#[test]
fn a_tree_is_gone_over(rt: HostRuntime) -> Result<(), Fail> {
    let mut bytes = [0u8; 20];
    bytes[19] = 0xa1;
    let name = Name::from_bytes(bytes);
    let expr = Expr::parse(
        rt.alloc(),
        b"only(top(parents(others),7),up(00000000000000000000000000000000000000A1,3))",
    )?;
    assert!(rt; is_as_spelled(expr.tree(), &name));
    Ok(())
}
