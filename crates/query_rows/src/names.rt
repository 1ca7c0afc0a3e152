//! Names of commits, and texts with names.

use id_groups::Name;
use set_expr::{Expr, ExprFault};
use std::alloc::{AllocError, Global};

/// The name of 19 zero bytes and this one.
pub fn name_of(last: u8) -> Name {
    let mut bytes = [0; 20];
    bytes[19] = last;
    Name::from_bytes(bytes)
}

/// The name of the commit at the place of a graph; that of a place beyond 255 stands for none.
pub fn name_at(place: usize) -> u8 {
    (place % 256) as u8
}

/// What a byte of a text stands for.
fn put_spelled(whole: &mut Vec<u8>, byte: u8) -> Result<(), AllocError> {
    match byte {
        b'@' => whole.extend_from_slice(&[b'0'; 38])?,
        b'<' => {
            for _call in 0..15 {
                whole.extend_from_slice(b"union(all,")?;
            }
        }
        b'>' => whole.extend_from_slice(&[b')'; 15])?,
        _ => whole.push(byte)?,
    }
    Ok(())
}

/// The expression that a text stands for.
pub fn spelled(alloc: Global, text: &[u8]) -> Result<Vec<u8>, AllocError> {
    let mut whole = Vec::new(alloc);
    for byte in text {
        put_spelled(&mut whole, *byte)?;
    }
    Ok(whole)
}

/// The expression that such a text spells.
pub fn parsed(alloc: Global, text: &[u8]) -> Result<Expr, ExprFault> {
    let whole = spelled(alloc, text)?;
    Expr::parse(alloc, &whole)
}
