// Rows of bits in one list of words.
ghost use Rattle.std.specs.Prelude.{◌≡◌, ℕ, ◌+◌, ◌*◌, ◌/◌, ◌<◌, ◌≤◌, ◌^◌, ◌↔◌, ◌||◌, ◌&&◌, not, eqb, true, false, IfOk, IfSome, length, slice_index};
ghost use Rattle.std.specs.List.{Contains};
ghost use Rattle.std.specs.List.Sorted.{IsStrictlyIncreasing};
ghost use Rattle.bit_rows.specs.Rows.{Rows, has, height, is_left_out, IsFirstFrom};
ghost use Rattle.bit_rows.specs.Words.{is_one, bit_in};

use crate::words::{WORD_BITS, first_one, is_one, joined, with_one, without};
use std::alloc::{AllocError, Global};
use std::marker::Model;

/// So many rows, each of so many bits.
///
/// Rows and bits are numbered from 0. Contracts see which bits each row has, how many rows there are and how wide they are. The memory is
/// that of the bits, each row rounded up to a multiple of 64.
#[derive(Drop)]
pub struct BitRows {
    words: Vec<u64>,
    row_words: usize,
    width: usize,
    height: usize,
}

impl Model for BitRows {
    ghost use Rattle.bit_rows.specs.Rows.{Rows};
    ghost use Rattle.bit_rows.specs.Words.{rows_in, Keeps};

    ghost Value = { Rows };

    ghost view = { λ b. record { width = b.width; rows = rows_in b.words.items b.row_words b.width b.height } };

    ghost invariant = { λ b. Keeps b.words.items b.row_words b.width b.height };
}

// A word without the one bit of the row that is to be left out, if it is in this word.
fn left_of(word: u64, index: usize, but: Option<usize>) -> u64
    ensures { (place : ℕ) → place < 64 → is_one result place ≡ (is_one word place && not (is_left_out but (index * 64 + place))) }
{
    match but {
        Some(but) => {
            if but / WORD_BITS == index {
                without(word, but % WORD_BITS)
            } else {
                word
            }
        }
        None => word,
    }
}

// Puts ones into a word, and says whether any was new there.
fn put_ones(words: &mut Vec<u64>, index: usize, ones: u64) -> bool
    requires { index < length words.old.items }
    ensures long { length words.new.items ≡ length words.old.items }
    ensures there { (k : ℕ) → k < 64 → is_one (slice_index words.new.items index) k ≡ (is_one (slice_index words.old.items index) k || is_one ones k) }
    ensures others { (i : ℕ) → ¬ (i ≡ index) → slice_index words.new.items i ≡ slice_index words.old.items i }
    ensures changed { result ≡ true → (k : ℕ) × (k < 64) × (is_one (slice_index words.old.items index) k ≡ false) × (is_one ones k ≡ true) }
    ensures unchanged { result ≡ false → words.new.items ≡ words.old.items }
{
    match joined(words[index], ones) {
        Some(all) => {
            words[index] = all;
            true
        }
        None => false,
    }
}

// Puts all bits of a row but one into another, and says whether any was new there.
fn join_words(
    words: &mut Vec<u64>,
    row_words: usize,
    into: usize,
    from: usize,
    but: Option<usize>,
) -> bool
    requires into_in_range { into * row_words + row_words ≤ length words.old.items }
    requires from_in_range { from * row_words + row_words ≤ length words.old.items }
    ensures long { length words.new.items ≡ length words.old.items }
    ensures joined { (k : ℕ) → k / 64 < row_words → bit_in words.new.items row_words into k ≡ (bit_in words.old.items row_words into k || (bit_in words.old.items row_words from k && not (is_left_out but k))) }
    ensures others { (n k : ℕ) → k / 64 < row_words → ¬ (n ≡ into) → bit_in words.new.items row_words n k ≡ bit_in words.old.items row_words n k }
    ensures changed { result ≡ true → (k : ℕ) × (k / 64 < row_words) × (bit_in words.old.items row_words into k ≡ false) × (bit_in words.new.items row_words into k ≡ true) }
    ensures unchanged { result ≡ false → words.new.items ≡ words.old.items }
{
    let into_start = into * row_words;
    let from_start = from * row_words;
    let mut changed = false;
    for index in 0..row_words {
        let ones = left_of(words[from_start + index], index, but);
        let put = put_ones(words, into_start + index, ones);
        changed |= put;
    }
    changed
}

impl BitRows {
    /// So many rows without any bit.
    ///
    /// Takes time in the number of words.
    pub fn new(alloc: Global, rows: usize, width: usize) -> Result<BitRows, AllocError>
        requires small { width ≤ 2 ^ 32 }
        ensures high { IfOk result (λ made. height made ≡ rows) }
        ensures wide { IfOk result (λ made. made.width ≡ width) }
        ensures clear { IfOk result (λ made. (row bit : ℕ) → has made row bit ≡ false) }
    {
        let row_words = width.div_ceil(WORD_BITS);
        let Some(all) = rows.checked_mul(row_words) else {
            return Err(AllocError);
        };
        let words = vec![in alloc; 0; all]?;
        Ok(BitRows {
            words,
            row_words,
            width,
            height: rows,
        })
    }

    /// Whether a row has a bit.
    pub fn has(&self, row: usize, bit: usize) -> bool
        requires row_in_range { row < height self.now }
        requires bit_in_range { bit < self.now.width }
        ensures { result ≡ has self.now row bit }
    {
        is_one(
            self.words[row * self.row_words + bit / WORD_BITS],
            bit % WORD_BITS,
        )
    }

    /// Puts a bit into a row, and says whether it was new there.
    pub fn insert(&mut self, row: usize, bit: usize) -> bool
        requires row_in_range { row < height self.old }
        requires bit_in_range { bit < self.old.width }
        ensures high { height self.new ≡ height self.old }
        ensures wide { self.new.width ≡ self.old.width }
        ensures set { has self.new row bit ≡ true }
        ensures others { (n k : ℕ) → ¬ ((n ≡ row) × (k ≡ bit)) → has self.new n k ≡ has self.old n k }
        ensures changed { result ≡ true → has self.old row bit ≡ false }
        ensures unchanged { result ≡ false → self.new ≡ self.old }
    {
        if self.has(row, bit) {
            false
        } else {
            let index = row * self.row_words + bit / WORD_BITS;
            self.words[index] = with_one(self.words[index], bit % WORD_BITS);
            true
        }
    }

    /// The first bit of a row from a place on, or nothing where the row has none there.
    ///
    /// Takes time in the number of words that it passes over.
    pub fn first_from(&self, row: usize, from: usize) -> Option<usize>
        requires row_in_range { row < height self.now }
        ensures first { IsFirstFrom self.now row from result }
        ensures in_range { IfSome result (λ bit. (bit < self.now.width) × (bit < 2 ^ 32)) }
    {
        let start = row * self.row_words;
        for index in from / WORD_BITS..self.row_words {
            let first = from.saturating_sub(index * WORD_BITS);
            if let Some(place) = first_one(self.words[start + index], first) {
                let bit = index * WORD_BITS + place;
                return if bit < self.width { Some(bit) } else { None };
            }
        }
        None
    }

    // Puts all bits of another row but one into a row, and says whether any was new there.
    fn join_left(&mut self, into: usize, from: usize, but: Option<usize>) -> bool
        requires into_in_range { into < height self.old }
        requires from_in_range { from < height self.old }
        ensures high { height self.new ≡ height self.old }
        ensures wide { self.new.width ≡ self.old.width }
        ensures joined { (k : ℕ) → has self.new into k ≡ (has self.old into k || (has self.old from k && not (is_left_out but k))) }
        ensures others { (n k : ℕ) → ¬ (n ≡ into) → has self.new n k ≡ has self.old n k }
        ensures changed { result ≡ true → (k : ℕ) × (k < self.old.width) × (has self.old into k ≡ false) × (has self.new into k ≡ true) }
        ensures unchanged { result ≡ false → self.new ≡ self.old }
    {
        join_words(&mut self.words, self.row_words, into, from, but)
    }

    /// Puts all bits of another row into a row, and says whether any was new there.
    ///
    /// Takes time in the number of words of a row.
    pub fn join(&mut self, into: usize, from: usize) -> bool
        requires into_in_range { into < height self.old }
        requires from_in_range { from < height self.old }
        ensures high { height self.new ≡ height self.old }
        ensures wide { self.new.width ≡ self.old.width }
        ensures joined { (k : ℕ) → has self.new into k ≡ (has self.old into k || has self.old from k) }
        ensures others { (n k : ℕ) → ¬ (n ≡ into) → has self.new n k ≡ has self.old n k }
        ensures changed { result ≡ true → (k : ℕ) × (k < self.old.width) × (has self.old into k ≡ false) × (has self.new into k ≡ true) }
        ensures unchanged { result ≡ false → self.new ≡ self.old }
    {
        self.join_left(into, from, None)
    }

    /// Puts all bits of another row but one into a row, and says whether any was new there.
    ///
    /// Takes time in the number of words of a row.
    pub fn join_but(&mut self, into: usize, from: usize, but: usize) -> bool
        requires into_in_range { into < height self.old }
        requires from_in_range { from < height self.old }
        ensures high { height self.new ≡ height self.old }
        ensures wide { self.new.width ≡ self.old.width }
        ensures joined { (k : ℕ) → has self.new into k ≡ (has self.old into k || (has self.old from k && not (eqb k but))) }
        ensures others { (n k : ℕ) → ¬ (n ≡ into) → has self.new n k ≡ has self.old n k }
        ensures changed { result ≡ true → (k : ℕ) × (k < self.old.width) × (has self.old into k ≡ false) × (has self.new into k ≡ true) }
        ensures unchanged { result ≡ false → self.new ≡ self.old }
    {
        self.join_left(into, from, Some(but))
    }

    /// The bits of a row, in rising order.
    ///
    /// Takes time in the number of words of a row and of its bits.
    pub fn members(&self, alloc: Global, row: usize) -> Result<Vec<u32>, AllocError>
        requires row_in_range { row < height self.now }
        ensures members { IfOk result (λ made. (k : ℕ) → Contains made.items k ↔ (has self.now row k ≡ true)) }
        ensures rising { IfOk result (λ made. IsStrictlyIncreasing made.items) }
    {
        let mut members = Vec::new(alloc);
        let mut from = 0;
        while let Some(bit) = self.first_from(row, from) {
            members.push(bit as u32)?;
            from = bit + 1;
        }
        Ok(members)
    }
}
