//! Levels that are extended batch by batch.

use flat_segments::FlatFault;
use sample_tables::LevelSample;
use segment_codec::read_segment;

/// How many bytes so many records in front take.
fn front_len(bytes: &[u8], count: u64) -> usize {
    let mut rest = bytes;
    for _k in 0..count {
        match read_segment(rest) {
            None => return bytes.len().saturating_sub(rest.len()),
            Some((_, after)) => rest = after,
        }
    }
    bytes.len().saturating_sub(rest.len())
}

/// A sample, and how many bytes of its log were added.
#[derive(Drop)]
pub struct Growing {
    pub sample: LevelSample,
    pub place: usize,
}

/// Adds some batches of so many records each.
pub fn grow(growing: Growing, log: &[u8], batch: u64, times: u64) -> Result<Growing, FlatFault> {
    let Growing {
        mut sample,
        mut place,
    } = growing;
    for _k in 0..times {
        if place < log.len() {
            let (_, behind) = log.split_at(place);
            let len = front_len(behind, batch);
            sample = sample.add(len)?;
            place = place.saturating_add(len);
        }
    }
    Ok(Growing { sample, place })
}
