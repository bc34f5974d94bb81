// Bytes read as values, indexes and flags, and values and indexes written as bytes, for the entry points, whose checks have compared the lengths.
// These functions ask that of their callers, so that no user calls them.
ghost use Rattle.std.specs.Prelude.{◌≡◌, ℕ, ◌+◌, ◌*◌, ◌≤◌, ◌<◌, length, take, drop, map};
ghost use Rattle.std.proofs.Common.{rules};
ghost use Rattle.std.proofs.Math.Seq.{paste};
ghost use Rattle.std.specs.Float.{binary64};
ghost use Rattle.std.specs.Float.Ieee.{of_bits, to_bits};
ghost use Rattle.wire.specs.Bytes.{word_of, bytes_of_word, words_in, bytes_of_words, values_in, bytes_of};
ghost use Rattle.wire.specs.Words.{flag_of, indexes_in, bytes_of_indexes, flags_in};

// The word that the 8 bytes from place `at` on stand for.
pub fn read_word(bytes: &[u8], at: usize) -> u64
    requires { at + 8 ≤ length bytes.now }
    ensures { result ≡ word_of (take 8 (drop at bytes.now)) }
{
    u64::from_le_bytes([
        bytes[at],
        bytes[at + 1],
        bytes[at + 2],
        bytes[at + 3],
        bytes[at + 4],
        bytes[at + 5],
        bytes[at + 6],
        bytes[at + 7],
    ])
}

// The word that the 4 bytes from place `at` on stand for.
pub fn read_index(bytes: &[u8], at: usize) -> u32
    requires { at + 4 ≤ length bytes.now }
    ensures { result ≡ word_of (take 4 (drop at bytes.now)) }
{
    u32::from_le_bytes([bytes[at], bytes[at + 1], bytes[at + 2], bytes[at + 3]])
}

// The flag that a word stands for.
fn flag_of(word: u32) -> i32
    ensures { result ≡ flag_of word }
{
    word.cast_signed()
}

// The low `size` bytes of a word, from place `at` on. Each turn writes the low byte of what is left of the word.
fn write_low(bytes: &mut [u8], at: usize, word: u64, size: usize)
    requires { at + size ≤ length bytes.old }
    ensures { bytes.new ≡ paste bytes.old at (bytes_of_word size word) size }
{
    let mut rest = word;
    for k in 0..size {
        bytes[at + k] = (rest % 256) as u8;
        rest = rest / 256;
    }
}

// A word as the 8 bytes from place `at` on.
pub fn write_word(bytes: &mut [u8], at: usize, word: u64)
    requires { at + 8 ≤ length bytes.old }
    ensures { bytes.new ≡ paste bytes.old at (bytes_of_word 8 word) 8 }
{
    write_low(bytes, at, word, 8);
}

// An index as the 4 bytes from place `at` on.
pub fn write_index(bytes: &mut [u8], at: usize, index: u32)
    requires { at + 4 ≤ length bytes.old }
    ensures { bytes.new ≡ paste bytes.old at (bytes_of_word 4 index) 4 }
{
    write_low(bytes, at, index as u64, 4);
}

// What stands in bytes as words of SIZE bytes each.
trait FromWord: Copy {
    const SIZE: usize;

    ghost SIZE: { ℕ };

    ghost of_word: { ℕ → Self };

    // What the word from place `at` on stands for.
    fn read(bytes: &[u8], at: usize) -> Self
        requires { at + SIZE ≤ length bytes.now }
        ensures { result ≡ of_word (word_of (take SIZE (drop at bytes.now))) };

    ghost has_bytes: { 0 < SIZE };
}

impl FromWord for f64 {
    const SIZE: usize = 8;

    ghost SIZE = { 8 };

    ghost of_word = { of_bits binary64 };

    fn read(bytes: &[u8], at: usize) -> f64 {
        words::value_of(read_word(bytes, at))
    }

    ghost has_bytes = { Prim.search rules };
}

impl FromWord for u32 {
    const SIZE: usize = 4;

    ghost SIZE = { 4 };

    ghost of_word = { λ word. word };

    fn read(bytes: &[u8], at: usize) -> u32 {
        read_index(bytes, at)
    }

    ghost has_bytes = { Prim.search rules };
}

impl FromWord for i32 {
    const SIZE: usize = 4;

    ghost SIZE = { 4 };

    ghost of_word = { flag_of };

    fn read(bytes: &[u8], at: usize) -> i32 {
        flag_of(read_index(bytes, at))
    }

    ghost has_bytes = { Prim.search rules };
}

// A value with the word that it is written as, of SIZE bytes.
trait ToWord: Copy {
    const SIZE: usize;

    ghost SIZE: { ℕ };

    ghost word: { Self → ℕ };

    // The word from place `at` on.
    fn write(self, bytes: &mut [u8], at: usize)
        requires { at + SIZE ≤ length bytes.old }
        ensures { bytes.new ≡ paste bytes.old at (bytes_of_word SIZE (word self)) SIZE };
}

impl ToWord for f64 {
    const SIZE: usize = 8;

    ghost SIZE = { 8 };

    ghost word = { to_bits binary64 };

    fn write(self, bytes: &mut [u8], at: usize) {
        write_word(bytes, at, words::bits_of(self))
    }
}

impl ToWord for u32 {
    const SIZE: usize = 4;

    ghost SIZE = { 4 };

    ghost word = { λ index. index };

    fn write(self, bytes: &mut [u8], at: usize) {
        write_index(bytes, at, self)
    }
}

fn read_all<T: FromWord>(bytes: &[u8], items: &mut [T])
    requires { length bytes.now ≡ T.SIZE * length items.old }
    ensures { items.new ≡ map T.of_word (words_in T.SIZE bytes.now) }
{
    for (i, item) in items.iter_mut().enumerate() {
        *item = T::read(bytes, T::SIZE * i);
    }
}

fn write_all<T: ToWord>(items: &[T], bytes: &mut [u8])
    requires { length bytes.old ≡ T.SIZE * length items.now }
    ensures { bytes.new ≡ bytes_of_words T.SIZE (map T.word items.now) }
{
    for (i, item) in items.iter().enumerate() {
        item.write(bytes, T::SIZE * i);
    }
}

// The values of bytes, into a slice that has as many.
#[tactic(auto, unfolding(crate::specs::Bytes::values_in))]
pub fn decode(bytes: &[u8], values: &mut [f64])
    requires { length bytes.now ≡ 8 * length values.old }
    ensures { values.new ≡ values_in binary64 bytes.now }
{
    read_all(bytes, values)
}

// The bytes of values, into a slice that has as many.
#[tactic(auto, unfolding(crate::specs::Bytes::bytes_of))]
pub fn encode(values: &[f64], bytes: &mut [u8])
    requires { length bytes.old ≡ 8 * length values.now }
    ensures { bytes.new ≡ bytes_of binary64 values.now }
{
    write_all(values, bytes)
}

// The indexes of bytes, into a slice that has as many.
pub fn decode_indexes(bytes: &[u8], indexes: &mut [u32])
    requires { length bytes.now ≡ 4 * length indexes.old }
    ensures { indexes.new ≡ indexes_in bytes.now }
{
    read_all(bytes, indexes)
}

// The bytes of indexes, into a slice that has as many.
pub fn encode_indexes(indexes: &[u32], bytes: &mut [u8])
    requires { length bytes.old ≡ 4 * length indexes.now }
    ensures { bytes.new ≡ bytes_of_indexes indexes.now }
{
    write_all(indexes, bytes)
}

// The flags of bytes, into a slice that has as many.
#[tactic(auto, unfolding(crate::specs::Words::flags_in))]
pub fn decode_flags(bytes: &[u8], flags: &mut [i32])
    requires { length bytes.now ≡ 4 * length flags.old }
    ensures { flags.new ≡ flags_in bytes.now }
{
    read_all(bytes, flags)
}
