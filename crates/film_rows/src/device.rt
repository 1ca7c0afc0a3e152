//! The calls of that disk.

ghost use Rattle.std.specs.Prelude.{◌≡◌, ◌≤◌, ◌-◌, ◌++◌, length, min, take, drop};
ghost use Rattle.film_rows.specs.Films.{of_two};
ghost use Rattle.film_rows.specs.Tells.{film_of, next_of};

use crate::disk::FilmDisk;
use disk_trait::{Disk, DiskFault};

// Fills the front with the bytes from that place on.
fn copy_out(bytes: &[u8], at: u64, out: &mut [u8]) -> usize
    ensures count { result ≡ min (length out.old) (length bytes.now - at) }
    ensures bytes { out.new ≡ take result (drop at bytes.now) ++ drop result out.old }
{
    if at >= bytes.len() as u64 {
        return 0;
    }
    let from = at as usize;
    let count = out.len().min(bytes.len() - from);
    out[..count].copy_from_slice(&bytes[from..from + count]);
    count
}

// The same of later bytes, but for so many in front of them, which are those of earlier bytes, as many as there are.
fn copy_in_two(earlier: &[u8], later: &[u8], at: u64, front: usize, out: &mut [u8]) -> usize
    ensures count { result ≡ min (length out.old) (length later.now - at) }
    ensures bytes { out.new ≡ of_two at (min (min front (length out.old)) (length earlier.now - at)) result earlier.now later.now out.old }
{
    let count = copy_out(later, at, out);
    let front = front.min(out.len());
    copy_out(earlier, at, &mut out[..front]);
    count
}

impl FilmDisk {
    // The bytes that it has at a moment.
    fn bytes(&self, moment: u64) -> &[u8]
        ensures { result.now ≡ (film_of self.now).film moment }
    {
        if moment < self.change {
            &self.first
        } else {
            &self.later
        }
    }

    // The next moment.
    fn next(&self) -> u64
        ensures next { result ≡ next_of self.now }
        ensures later { self.now.moment ≤ result }
    {
        self.moment.saturating_add(1)
    }

    // A moment passes.
    fn pass(&mut self)
        ensures film { (film_of self.new).film ≡ (film_of self.old).film }
        ensures split { self.new.split ≡ self.old.split }
        ensures later { self.old.moment ≤ self.new.moment }
        ensures next { self.new.moment ≡ next_of self.old }
    {
        self.moment = self.next();
    }
}

impl Disk for FilmDisk {
    ghost use Rattle.std.specs.Prelude.{None, Some};
    ghost use Rattle.film_rows.specs.Tells.{film_of};

    ghost bytes = { λ _. None };

    ghost told = { λ _. None };

    ghost meanwhile = { λ d. Some (film_of d) };

    ghost faults = { λ _. 0 };

    ghost tells = { λ _. tt };

    ghost sound = { λ _. tt };

    fn size(&mut self) -> Result<u64, DiskFault> {
        let size = self.bytes(self.moment).len() as u64;
        self.pass();
        Ok(size)
    }

    fn read(&mut self, at: u64, out: &mut [u8]) -> Result<usize, DiskFault> {
        let earlier = self.bytes(self.moment);
        let later = self.bytes(self.next());
        let count = copy_in_two(earlier, later, at, self.split, out);
        self.pass();
        Ok(count)
    }

    fn write(&mut self, _at: u64, _piece: &[u8]) -> Result<(), DiskFault> {
        Ok(())
    }

    fn sync(&mut self) -> Result<(), DiskFault> {
        self.pass();
        Ok(())
    }

    fn clock(&self) -> u64 {
        0
    }
}
