#![tactic(auto)]
// The record of an array as words in a lent buffer.
ghost use Rattle.std.specs.Prelude.{◌≡◌, ◌+◌, ◌≤◌, eqb, length, get_or};
ghost use Rattle.array_words.specs.Words.{tile_words, array_words, quad_word, part_word, counts_word, tile_word, written_at};
ghost use Rattle.array_words.specs.Words.{value_at, count_at, quad_in, part_in, counts_in, tile_in, array_in, stored_in};

use array::Array;
use runs::Counts;
use sizes::{MOST_COUNTED, MOST_TILES};
use tile::Tile;
use tile_wires::{Part, Quad};

// The words of a tile.
pub const TILE: usize = 21;

// The words of an array: 3, and those of its tiles.
pub const ARRAY: usize = 3 + MOST_TILES * TILE;

// Whether so many words are those of an array.
pub fn is_array(count: usize) -> bool
    ensures { result ≡ eqb count array_words }
{
    count == ARRAY
}

// The array in the words. A word beyond their end counts as 0.
pub fn load(words: &[u64]) -> Array
    ensures { result ≡ array_in words.now }
{
    // Stays a loop over a first array: array::from_fn takes a copy of the record more, 39 kB of the stack that the header promises.
    let mut tiles = [tile_in(words, 3); MOST_TILES];
    for (i, tile) in tiles.iter_mut().enumerate() {
        *tile = tile_in(words, 3 + i * TILE);
    }
    Array {
        n: word_at(words, 0) as usize,
        sweeps: word_at(words, 1) as usize,
        tick: word_at(words, 2) as usize,
        tiles,
    }
}

// The tile in the words from `at` on.
#[tactic(auto, unfolding(crate::specs::Words::tile_in))]
fn tile_in(words: &[u64], at: usize) -> Tile
    requires { at + tile_words ≤ array_words }
    ensures { result ≡ tile_in words.now at }
{
    Tile {
        cells: part_in(words, at),
        wires: part_in(words, at + 8),
        row_wire: value_at(words, at + 16),
        column_wire: value_at(words, at + 17),
        mark: word_at(words, at + 18) != 0,
        counts: counts_in(words, at + 19),
    }
}

#[tactic(auto, unfolding(crate::specs::Words::counts_in))]
fn counts_in(words: &[u64], at: usize) -> Counts
    requires { at + 2 ≤ array_words }
    ensures { result ≡ counts_in words.now at }
{
    Counts {
        turns: count_at(words, at),
        rounded: count_at(words, at + 1),
    }
}

#[tactic(auto, unfolding(crate::specs::Words::part_in))]
fn part_in(words: &[u64], at: usize) -> Part
    requires { at + 8 ≤ array_words }
    ensures { result ≡ part_in words.now at }
{
    Part {
        matrix: quad_in(words, at),
        vectors: quad_in(words, at + 4),
    }
}

#[tactic(auto, unfolding(crate::specs::Words::quad_in))]
fn quad_in(words: &[u64], at: usize) -> Quad<f64>
    requires { at + 4 ≤ array_words }
    ensures { result ≡ quad_in words.now at }
{
    Quad {
        alpha: value_at(words, at),
        beta: value_at(words, at + 1),
        gamma: value_at(words, at + 2),
        delta: value_at(words, at + 3),
    }
}

#[tactic(auto, unfolding(crate::specs::Words::value_at))]
fn value_at(words: &[u64], k: usize) -> f64
    ensures { result ≡ value_at words.now k }
{
    float64::from_bits(word_at(words, k))
}

// The count in the word at k. A word above the most that a tile counts to counts as the most.
#[tactic(auto, unfolding(crate::specs::Words::count_at))]
fn count_at(words: &[u64], k: usize) -> u16
    ensures { result ≡ count_at words.now k }
{
    word_at(words, k).min(MOST_COUNTED as u64) as u16
}

// The word at k, and 0 beyond the end.
fn word_at(words: &[u64], k: usize) -> u64
    ensures { result ≡ get_or words.now k 0 }
{
    words.get(k).copied().unwrap_or(0)
}

// Writes the words of an array. A slice of another length stays as it is.
#[tactic(auto, using(crate::proofs::WordsWritten::none_stored, crate::proofs::WordsWritten::all_stored))]
pub fn store(array: &Array, words: &mut [u64])
    ensures { words.new ≡ stored_in array.now words.old }
{
    if words.len() != ARRAY {
        return;
    }
    words[0] = array.n as u64;
    words[1] = array.sweeps as u64;
    words[2] = array.tick as u64;
    for (i, tile) in array.tiles.iter().enumerate() {
        store_tile(tile, 3 + i * TILE, words);
    }
}

// Writes the words of a tile from `at` on.
#[tactic(auto, using(crate::proofs::WordsWritten::tile_written))]
fn store_tile(tile: &Tile, at: usize, words: &mut [u64])
    requires { at + tile_words ≤ length words.old }
    ensures { words.new ≡ written_at at tile_words (tile_word tile.now) words.old }
{
    store_part(tile.cells, at, words);
    store_part(tile.wires, at + 8, words);
    words[at + 16] = float64::to_bits(tile.row_wire);
    words[at + 17] = float64::to_bits(tile.column_wire);
    words[at + 18] = tile.mark as u64;
    store_counts(tile.counts, at + 19, words);
}

#[tactic(auto, using(crate::proofs::WordsWritten::counts_written))]
fn store_counts(counts: Counts, at: usize, words: &mut [u64])
    requires { at + 2 ≤ length words.old }
    ensures { words.new ≡ written_at at 2 (counts_word counts) words.old }
{
    words[at] = counts.turns as u64;
    words[at + 1] = counts.rounded as u64;
}

#[tactic(auto, using(crate::proofs::WordsWritten::part_written))]
fn store_part(part: Part, at: usize, words: &mut [u64])
    requires { at + 8 ≤ length words.old }
    ensures { words.new ≡ written_at at 8 (part_word part) words.old }
{
    store_quad(part.matrix, at, words);
    store_quad(part.vectors, at + 4, words);
}

#[tactic(auto, using(crate::proofs::WordsWritten::quad_written))]
fn store_quad(quad: Quad<f64>, at: usize, words: &mut [u64])
    requires { at + 4 ≤ length words.old }
    ensures { words.new ≡ written_at at 4 (quad_word quad) words.old }
{
    words[at] = float64::to_bits(quad.alpha);
    words[at + 1] = float64::to_bits(quad.beta);
    words[at + 2] = float64::to_bits(quad.gamma);
    words[at + 3] = float64::to_bits(quad.delta);
}
