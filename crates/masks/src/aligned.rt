//! The aligned split of a span: prefix, whole words, suffix.
ghost use Rattle.std.specs.Prelude.{◌≡◌, ◌≢◌, ◌*◌, ◌≤◌, length as list_length, IfOk};
ghost use Rattle.masks.specs.Refusal.{failure_of};
ghost use Rattle.masks.specs.Aligned.{aligned_checks, aligned_split, prefix_length, bulk_start_of, bulk_offset};
ghost use Rattle.masks.specs.Checks.{first_failed, limit};

use crate::checks::{check_address, check_span};
use crate::refusal::Refusal;
use crate::span::flags_word;

/// A span's flags in three parts: a word of prefix flags, whole words that begin at a byte, and a word of suffix flags. The Rust's
/// `AlignedBitmapSlice`, with the whole words as the number of their first byte and how many they are.
#[derive(Clone, Copy, PartialEq, Eq, Debug, Default)]
pub struct AlignedBitmapSlice {
    pub prefix: u64,
    pub prefix_len: usize,
    pub bulk_start: usize,
    pub bulk_len: usize,
    pub suffix: u64,
    pub suffix_len: usize,
}

impl AlignedBitmapSlice {
    /// Splits a span. `address` is the address of `bytes[0]` modulo 8; one above 7 is refused with 8. For length 0 all parts are empty and
    /// nothing is checked.
    pub fn new(
        bytes: &[u8],
        start: usize,
        length: usize,
        address: usize,
    ) -> Result<AlignedBitmapSlice, Refusal>
        ensures empty { length ≡ 0 → failure_of result ≡ 0 }
        ensures refused { length ≢ 0 → failure_of result ≡ first_failed
            (aligned_checks start length (list_length bytes.now) address) }
        ensures split { IfOk result (λ s. s ≡ aligned_split bytes.now start length address) }
    {
        if length == 0 {
            return Ok(AlignedBitmapSlice::default());
        }
        check_aligned(start, length, bytes.len(), address)?;
        let span = AddressedSpan {
            bytes,
            start,
            length,
            address,
        };
        Ok(span.split())
    }
}

// Makes checks 1 and 2 of a span over `size` bytes, and check 8 of its address remainder.
pub(crate) fn check_aligned(
    start: usize,
    length: usize,
    size: usize,
    address: usize,
) -> Result<(), Refusal>
    ensures { failure_of result ≡ first_failed (aligned_checks start length size address) }
{
    check_span(start, length, size)?;
    check_address(address)
}

// A span whose numbers can be added up, and the address of `bytes[0]` modulo 8.
#[derive(Clone, Copy)]
pub(crate) struct AddressedSpan<'a> {
    pub bytes: &'a [u8],
    pub start: usize,
    pub length: usize,
    pub address: usize,
    ghost starts: { start ≤ 2 * limit },
    ghost short: { length ≤ limit },
    ghost low: { address ≤ 7 },
}

impl AddressedSpan<'_> {
    // Returns the offset in bytes from the span's first byte to its first whole word.
    fn bulk_offset(&self) -> usize
        ensures { result ≡ bulk_offset self.now.start self.now.address }
    {
        let to_aligned = (8 - (self.address + self.start / 8) % 8) % 8;
        if self.start % 8 <= 8 * to_aligned {
            to_aligned
        } else {
            to_aligned + 8
        }
    }

    // Returns how many flags the prefix has: all of a span that fits one word starting at its first byte.
    fn prefix_length(&self) -> usize
        ensures { result ≡ prefix_length self.now.start self.now.length self.now.address }
    {
        if self.start % 8 + self.length <= 64 {
            self.length
        } else {
            8 * self.bulk_offset() - self.start % 8
        }
    }

    // Returns the byte at which the whole words begin; 0 for a span that fits one word starting at its first byte.
    fn bulk_start(&self) -> usize
        ensures { result ≡ bulk_start_of self.now.start self.now.length self.now.address }
    {
        if self.start % 8 + self.length <= 64 {
            0
        } else {
            self.start / 8 + self.bulk_offset()
        }
    }

    // Returns the three parts of the span.
    pub(crate) fn split(&self) -> AlignedBitmapSlice
        ensures { result ≡
            aligned_split self.now.bytes.now self.now.start self.now.length self.now.address }
    {
        let prefix_len = self.prefix_length();
        let bulk_start = self.bulk_start();
        let rest = self.length - prefix_len;
        let bulk_len = rest / 64;
        let suffix_len = rest % 64;
        let prefix = flags_word(self.bytes, self.start, prefix_len);
        let suffix = flags_word(
            self.bytes,
            self.start + self.length - suffix_len,
            suffix_len,
        );
        AlignedBitmapSlice {
            prefix,
            prefix_len,
            bulk_start,
            bulk_len,
            suffix,
            suffix_len,
        }
    }
}
