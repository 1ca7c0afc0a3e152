//! A filter of a run: bits that tell of most names that the run doesn't hold, by one word of memory.

ghost use Rattle.std.specs.Prelude.{◌≡◌, ℕ, ◌/◌, ◌%◌, ◌^◌, length, true, IfOk};
ghost use Rattle.name_index.specs.Filter.{PassAll, bit_of, lets_pass, mask_of, word_for};

use crate::entry::Entry;
use std::alloc::{AllocError, Global};
use std::marker::Model;

/// Fewer entries have no filter: their run may still change in place, and a search in it is quick.
const FEWEST: usize = 128;

/// A filter has a word of 64 bits for so many entries. With two bits a front about one in fourteen passes that isn't there.
const ENTRIES_A_WORD: usize = 10;

/// Which fronts may be among those of some entries. The leading half of a front tells its word, its last digits which two
/// bits it has there. Contracts see the words; where there are none, each front may be there.
#[derive(Drop)]
pub(crate) struct Filter {
    words: Vec<u64>,
}

impl Model for Filter {
    ghost use Rattle.std.specs.Prelude.{List, ℕ};

    ghost Value = { List ℕ };

    ghost view = { λ filter. filter.words.items };
}

/// The word that has this bit alone, of the 64 bits counted round and round.
#[inline]
fn bit_of(number: u64) -> u64
    ensures { result ≡ bit_of number }
{
    1 << (number % 64)
}

/// The bits that a front has in its word.
#[inline]
fn mask_of(front: u64) -> u64
    ensures { result ≡ mask_of front }
{
    bit_of(front) | bit_of(front / 64)
}

/// Which of so many words tells of a front. Where fronts are spread evenly as hashes are, so are their words.
#[inline]
fn word_for(front: u64, count: usize) -> usize
    ensures { result ≡ word_for front count }
{
    ((front >> 32).wrapping_mul(count as u64) >> 32) as usize
}

/// Sets the bits of a front.
#[inline]
fn mark(words: &mut [u64], front: u64)
    ensures own { lets_pass words.new front ≡ true }
    ensures len { length words.new ≡ length words.old }
    ensures others { (f : ℕ) → lets_pass words.old f ≡ true → lets_pass words.new f ≡ true }
{
    let at = word_for(front, words.len());
    if at < words.len() {
        words[at] |= mask_of(front);
    }
}

/// So many words, with the bits of the entries' fronts.
fn words_of(alloc: Global, entries: &[Entry], count: usize) -> Result<Vec<u64>, AllocError>
    ensures { IfOk result (λ words. PassAll words.items entries.now) }
{
    let mut words = vec![in alloc; 0_u64; count]?;
    let mut rest = entries;
    'each: while let Some((entry, others)) = rest.split_first() {
        mark(&mut words, entry.front);
        rest = others;
    }
    Ok(words)
}

impl Filter {
    /// The filter that lets each front pass.
    pub(crate) fn none(alloc: Global) -> Filter
        ensures { (front : ℕ) → lets_pass result front ≡ true }
    {
        Filter {
            words: Vec::new(alloc),
        }
    }

    /// A filter of the entries. For a few, and for want of memory, it is the one that lets each front pass.
    pub(crate) fn of(alloc: Global, entries: &[Entry]) -> Filter
        ensures { PassAll result entries.now }
    {
        if entries.len() < FEWEST {
            return Filter::none(alloc);
        }
        match words_of(alloc, entries, entries.len() / ENTRIES_A_WORD) {
            Ok(words) => Filter { words },
            Err(_) => Filter::none(alloc),
        }
    }

    /// Lets each front pass from now on.
    pub(crate) fn clear(&mut self)
        ensures { (front : ℕ) → lets_pass self.new front ≡ true }
    {
        self.words.clear();
    }

    /// The same filter once more.
    pub(crate) fn copy(&self, alloc: Global) -> Result<Filter, AllocError>
        ensures { IfOk result (λ copy. copy ≡ self.now) }
    {
        let mut words = Vec::with_capacity(alloc, self.words.len())?;
        words.extend_from_slice(&self.words)?;
        Ok(Filter { words })
    }

    /// Whether an entry may have this front: `false` only where none has.
    #[inline]
    pub(crate) fn lets_pass(&self, front: u64) -> bool
        ensures { result ≡ lets_pass self.now front }
    {
        let mask = mask_of(front);
        match self.words.get(word_for(front, self.words.len())) {
            Some(word) => word & mask == mask,
            None => true,
        }
    }
}
