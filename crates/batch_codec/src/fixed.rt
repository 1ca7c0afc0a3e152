//! Numbers of a fixed size, the highest byte first, and pieces of so many bytes.

ghost use Rattle.std.specs.Prelude.{◌≡◌, ◌≤◌, ◌+◌, IfSome, length, take, drop};
ghost use Rattle.std.specs.Int.{w16, w32, w64, from_be_bytes};
ghost use Rattle.segment_codec.specs.Reading.{Gives};
ghost use Rattle.batch_codec.specs.Reading.{fixed_at, piece_at};

/// The number in the first eight bytes.
pub fn front_u64(bytes: &[u8]) -> u64
    requires { 8 ≤ length bytes.now }
    ensures { result ≡ from_be_bytes w64 (take 8 bytes.now) }
{
    u64::from_be_bytes([
        bytes[0], bytes[1], bytes[2], bytes[3], bytes[4], bytes[5], bytes[6], bytes[7],
    ])
}

/// A number of eight bytes at the front, and the rest; `None` where there are fewer.
pub fn read_u64(bytes: &[u8]) -> Option<(u64, &[u8])>
    ensures exact { Gives (λ r. (r.0, r.1.now)) result (fixed_at w64 bytes.now) }
    ensures size { IfSome result (λ r. length bytes.now ≡ 8 + length r.1.now) }
{
    if bytes.len() < 8 {
        return None;
    }
    let (front, rest) = bytes.split_at(8);
    Some((front_u64(front), rest))
}

/// A number of four bytes at the front, and the rest; `None` where there are fewer.
pub fn read_u32(bytes: &[u8]) -> Option<(u32, &[u8])>
    ensures exact { Gives (λ r. (r.0, r.1.now)) result (fixed_at w32 bytes.now) }
    ensures size { IfSome result (λ r. length bytes.now ≡ 4 + length r.1.now) }
{
    if bytes.len() < 4 {
        return None;
    }
    let (front, rest) = bytes.split_at(4);
    let number = u32::from_be_bytes([front[0], front[1], front[2], front[3]]);
    Some((number, rest))
}

/// A number of two bytes at the front, and the rest; `None` where there are fewer.
pub fn read_u16(bytes: &[u8]) -> Option<(u16, &[u8])>
    ensures exact { Gives (λ r. (r.0, r.1.now)) result (fixed_at w16 bytes.now) }
    ensures size { IfSome result (λ r. length bytes.now ≡ 2 + length r.1.now) }
{
    if bytes.len() < 2 {
        return None;
    }
    let (front, rest) = bytes.split_at(2);
    let number = u16::from_be_bytes([front[0], front[1]]);
    Some((number, rest))
}

/// So many bytes from this place on.
pub fn piece(bytes: &[u8], place: usize, len: usize) -> &[u8]
    requires { place + len ≤ length bytes.now }
    ensures { result.now ≡ take len (drop place bytes.now) }
{
    let (_, behind) = bytes.split_at(place);
    let (piece, _) = behind.split_at(len);
    piece
}

/// So many bytes at the front, and the rest; `None` where there are fewer.
pub fn read_piece(bytes: &[u8], len: usize) -> Option<(&[u8], &[u8])>
    ensures exact { Gives (λ r. (r.0.now, r.1.now)) result (piece_at len bytes.now) }
    ensures len { IfSome result (λ r. length r.0.now ≡ len) }
    ensures size { IfSome result (λ r. length bytes.now ≡ len + length r.1.now) }
{
    if bytes.len() < len {
        return None;
    }
    Some(bytes.split_at(len))
}
