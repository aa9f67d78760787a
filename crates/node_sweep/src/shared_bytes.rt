//! Bytes and bits that threads read and note at the same time.

use std::alloc::{AllocError, Global};
use std::sync::atomic::{AtomicU64, Ordering};

// As many zeros.
fn zeros(alloc: Global, count: usize) -> Result<Vec<AtomicU64>, AllocError> {
    let mut words = Vec::with_capacity(alloc, count)?;
    for _ in 0..count {
        words.push(AtomicU64::new(0))?;
    }
    Ok(words)
}

/// A byte for each of some places. A byte that was noted may be lost again, where another one is
/// noted beside it at the same time.
#[derive(Clone, Copy)]
pub(crate) struct SharedBytes<'a> {
    words: &'a [AtomicU64],
}

impl<'a> SharedBytes<'a> {
    /// The words of so many bytes, each 0.
    pub(crate) fn blank(alloc: Global, count: usize) -> Result<Vec<AtomicU64>, AllocError> {
        zeros(alloc, count.div_ceil(8))
    }

    /// The bytes in these words.
    pub(crate) fn of_words(words: &'a [AtomicU64]) -> SharedBytes<'a> {
        SharedBytes { words }
    }

    /// The byte at a place; 0 beyond the last.
    pub(crate) fn get(&self, place: u32) -> u8 {
        match self.words.get((place / 8) as usize) {
            Some(word) => ((word.load(Ordering::Relaxed) >> (8 * (place % 8))) & 255) as u8,
            None => 0,
        }
    }

    /// Notes a byte at a place where 0 or this byte stands.
    pub(crate) fn note(&self, place: u32, byte: u8) {
        if let Some(word) = self.words.get((place / 8) as usize) {
            let noted = u64::from(byte) << (8 * (place % 8));
            word.store(word.load(Ordering::Relaxed) | noted, Ordering::Relaxed);
        }
    }
}

/// A bit for each of some places, all clear at first.
#[derive(Drop)]
pub(crate) struct SharedBits {
    words: Vec<AtomicU64>,
}

impl SharedBits {
    /// So many bits, all clear.
    pub(crate) fn new(alloc: Global, count: usize) -> Result<SharedBits, AllocError> {
        let words = zeros(alloc, count.div_ceil(64))?;
        Ok(SharedBits { words })
    }

    /// Whether the bit at a place is set.
    pub(crate) fn is_set(&self, place: u32) -> bool {
        match self.words.get((place / 64) as usize) {
            Some(word) => (word.load(Ordering::Relaxed) >> (place % 64)) & 1 == 1,
            None => false,
        }
    }

    /// Sets the bit at a place.
    pub(crate) fn set(&self, place: u32) {
        if let Some(word) = self.words.get((place / 64) as usize) {
            let bit = 1u64 << (place % 64);
            if word.load(Ordering::Relaxed) & bit == 0 {
                word.fetch_or(bit, Ordering::Relaxed);
            }
        }
    }
}
