// A moment of the disk, as its record gives it.
ghost use Rattle.std.specs.Prelude.{◌≡◌, ◌<◌, length, min, slice_index, IfOk};
ghost use Rattle.std.specs.List.{list_any};
ghost use Rattle.disk_memory.specs.Scenes.{Scene, History, synced_scene, written_scene, done};
ghost use Rattle.disk_memory.specs.Chosen.{IsChosen};
ghost use Rattle.disk_memory.specs.Views.{Shows, covers, is_sure, view_byte};

use crate::call::Kind;
use crate::crash::Fill;
use crate::keeping::with_piece;
use std::alloc::{AllocError, Global};

// So many bytes from a place on, which a write was to change.
#[derive(Drop)]
pub(crate) struct Span {
    pub(crate) from: usize,
    pub(crate) size: usize,
}

// What is sure, what a read gives, and what was written since the last sync, newest first.
#[derive(Drop)]
pub(crate) struct View {
    pub(crate) stable: Vec<u8>,
    pub(crate) bytes: Vec<u8>,
    pub(crate) written: Vec<Span>,
}

// The byte at a place, or 0 past the end.
fn byte_or_zero(bytes: &[u8], place: usize) -> u8
    ensures { result ≡ slice_index bytes.now place }
{
    if place < bytes.len() { bytes[place] } else { 0 }
}

// Whether some span covers the place.
fn is_written(spans: &[Span], place: usize) -> bool
    ensures { result ≡ list_any (λ span. covers place span) spans.now }
{
    spans.iter().any(|span| span.covers(place))
}

impl Span {
    fn covers(&self, place: usize) -> bool
        ensures { result ≡ covers place self.now }
    {
        self.from <= place && place - self.from < self.size
    }
}

impl View {
    // A disk that was loaded with these bytes.
    pub(crate) fn first(alloc: Global, start: &[u8]) -> Result<View, AllocError>
        ensures { IfOk result (λ view. Shows (synced_scene start.now) view) }
    {
        Ok(View {
            stable: Vec::from_slice(alloc, start)?,
            bytes: Vec::from_slice(alloc, start)?,
            written: Vec::new(alloc),
        })
    }

    // After a sync.
    fn synced(self, alloc: Global) -> Result<View, AllocError>
        ensures { IfOk result (λ view. (scene : Scene) → Shows scene self → Shows (synced_scene scene.bytes) view) }
    {
        Ok(View {
            stable: Vec::from_slice(alloc, &self.bytes)?,
            bytes: self.bytes,
            written: Vec::new(alloc),
        })
    }

    // After a write, which begins inside.
    fn written(self, alloc: Global, at: u64, piece: &[u8]) -> Result<View, AllocError>
        ensures { IfOk result (λ view. (scene : Scene) → Shows scene self → Shows (written_scene (min at (length scene.bytes)) piece.now scene) view) }
    {
        let from = at.min(self.bytes.len() as u64) as usize;
        let bytes = with_piece(alloc, &self.bytes, from, piece)?;
        let mut written = self.written;
        let size = piece.len();
        written.insert(0, Span { from, size })?;
        Ok(View {
            stable: self.stable,
            bytes,
            written,
        })
    }

    // After a call that is recorded.
    pub(crate) fn after(self, alloc: Global, kind: &Kind) -> Result<View, AllocError>
        ensures { IfOk result (λ view. (h : History) → Shows h.now self → Shows (done kind.now h).now view) }
    {
        match kind {
            Kind::Write(at, piece) => self.written(alloc, *at, piece),
            Kind::Sync => self.synced(alloc),
        }
    }

    // Whether a crash keeps the stable byte there.
    fn is_sure(&self, place: usize) -> bool
        ensures { result ≡ is_sure self.now place }
    {
        place < self.stable.len() && !is_written(&self.written, place)
    }

    // The byte that a crash leaves there.
    fn byte_at(&self, place: usize, fill: Fill) -> u8
        ensures { result ≡ view_byte fill self.now place }
    {
        if self.is_sure(place) {
            return byte_or_zero(&self.stable, place);
        }
        match fill {
            Fill::Old => byte_or_zero(&self.stable, place),
            Fill::New => byte_or_zero(&self.bytes, place),
            Fill::Byte(byte) => byte,
        }
    }

    // The list that a crash leaves, filled so and with the length nearest to that size.
    pub(crate) fn image(&self, alloc: Global, fill: Fill, size: u64) -> Result<Vec<u8>, AllocError>
        ensures { IfOk result (λ image. (scene : Scene) → Shows scene self.now → IsChosen scene fill size image.items) }
    {
        let greatest = self.bytes.len() as u64;
        let wanted = (size.min(greatest) as usize).max(self.stable.len());
        let mut image = Vec::new(alloc);
        'places: for place in 0..wanted {
            image.push(self.byte_at(place, fill))?;
        }
        Ok(image)
    }
}
