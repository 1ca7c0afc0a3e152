// Finds the gates of a log in its bytes.
ghost use Rattle.std.specs.Prelude.{◌≡◌, ◌≤◌, ◌<◌, ◌+◌, length, take};
ghost use Rattle.std.specs.Int.{w64, from_be_bytes};
ghost use Rattle.gated_log.specs.Held.{length_behind, payload_behind};
ghost use Rattle.gated_log.specs.Scan.{FindsGates};

use crate::LoadLog;
use std::alloc::Global;

// Where the gates of a log stand: the open ones, and the closed one that ends it.
#[derive(Drop)]
pub(crate) struct Gates {
    pub(crate) open_gates: Vec<usize>,
    pub(crate) closed: usize,
}

// The number in the first eight bytes.
fn number(bytes: &[u8]) -> u64
    requires { 8 ≤ length bytes.now }
    ensures { result ≡ from_be_bytes w64 (take 8 bytes.now) }
{
    u64::from_be_bytes([
        bytes[0], bytes[1], bytes[2], bytes[3], bytes[4], bytes[5], bytes[6], bytes[7],
    ])
}

// The gates, in one walk from each to the next.
pub(crate) fn find_gates(alloc: Global, bytes: &[u8]) -> Result<Gates, LoadLog>
    requires { 2 ≤ length bytes.now }
    ensures { FindsGates bytes.now result }
{
    let mut open_gates = Vec::new(alloc);
    let mut at = 0;
    'gates: while bytes[at] == 1 {
        let rest = bytes.len() - at - 1;
        if rest < 9 {
            return Err(LoadLog::Damaged(at as u64));
        }
        let size = number(&bytes[at + 1..]);
        if size > (rest - 9) as u64 {
            return Err(LoadLog::Damaged(at as u64));
        }
        open_gates.push(at)?;
        at += 9 + size as usize;
    }
    Ok(Gates {
        open_gates,
        closed: at,
    })
}

// The payload of the batch whose open gate stands there.
pub(crate) fn payload_at<'a>(bytes: &'a [u8], at: usize) -> &'a [u8]
    requires { at + 9 + length_behind bytes.now at < length bytes.now }
    ensures { result.now ≡ payload_behind bytes.now at }
{
    let size = number(&bytes[at + 1..]) as usize;
    &bytes[at + 9..at + 9 + size]
}
