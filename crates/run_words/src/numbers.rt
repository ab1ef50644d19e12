//! Numbers as words.
ghost use Rattle.std.specs.Prelude.{◌≡◌, ◌≤◌};
ghost use Rattle.std.specs.Char.{is_ascii_digit};
ghost use Rattle.std.specs.List.{list_all};
ghost use Rattle.base_decimals.specs.Texts.{is_number, number_of};
ghost use Rattle.run_words.specs.Words.{begins_with_zero, count_of, every_of, height_of, seed_of, zero_of};

/// The most digits of a seed.
const SEED_DIGITS: usize = 20;

/// The most digits of a number of blocks.
const COUNT_DIGITS: usize = 6;

/// The most digits of a number of blocks for a commit.
const EVERY_DIGITS: usize = 7;

/// The most digits of a height.
const HEIGHT_DIGITS: usize = 19;

/// The most blocks.
const MOST_BLOCKS: u128 = 100_000;

/// The most blocks for a commit.
const MOST_EVERY: u128 = 1_000_000;

/// Whether each byte is a digit.
fn are_digits(text: &[u8]) -> bool
    ensures { result ≡ list_all is_ascii_digit text.now }
{
    text.iter().all(|byte| byte.is_ascii_digit())
}

/// Whether the word is 1 to `most` digits.
fn is_number(word: &str, most: usize) -> bool
    ensures { result ≡ is_number most word.now }
{
    !word.is_empty() && word.len() <= most && are_digits(word.as_bytes())
}

/// The number that 1 to `most` digits spell.
fn number_of(word: &str, most: usize) -> Option<u128>
    requires { most ≤ 38 }
    ensures { result ≡ number_of most word.now }
{
    if is_number(word, most) {
        word.parse().ok()
    } else {
        None
    }
}

/// Whether the word begins with the digit 0.
fn begins_with_zero(word: &[u8]) -> bool
    ensures { result ≡ begins_with_zero word.now }
{
    !word.is_empty() && word[0] == b'0'
}

/// The seed: 1 to 20 digits, below 2^64.
pub(crate) fn seed_of(word: &str) -> Option<u64>
    ensures { result ≡ seed_of word.now }
{
    let number = number_of(word, SEED_DIGITS)?;
    if number < 1 << 64 {
        Some(number as u64)
    } else {
        None
    }
}

/// The number of blocks: from 1 to 100,000, without zeros in front.
pub(crate) fn count_of(word: &str) -> Option<u32>
    ensures { result ≡ count_of word.now }
{
    if begins_with_zero(word.as_bytes()) {
        return None;
    }
    let number = number_of(word, COUNT_DIGITS)?;
    if 1 <= number && number <= MOST_BLOCKS {
        Some(number as u32)
    } else {
        None
    }
}

/// At how many blocks commits are made: from 1 to 1,000,000, without zeros in front.
pub(crate) fn every_of(word: &str) -> Option<u64>
    ensures { result ≡ every_of word.now }
{
    if begins_with_zero(word.as_bytes()) {
        return None;
    }
    let number = number_of(word, EVERY_DIGITS)?;
    if 1 <= number && number <= MOST_EVERY {
        Some(number as u64)
    } else {
        None
    }
}

/// The height 0, where the word is that digit alone.
fn zero_of(word: &str) -> Option<u64>
    ensures { result ≡ zero_of word.now }
{
    if word == "0" { Some(0) } else { None }
}

/// A height: digits without zeros in front, at most 2^63 - 1.
pub(crate) fn height_of(word: &str) -> Option<u64>
    ensures { result ≡ height_of word.now }
{
    if begins_with_zero(word.as_bytes()) {
        return zero_of(word);
    }
    let number = number_of(word, HEIGHT_DIGITS)?;
    if number < 1 << 63 {
        Some(number as u64)
    } else {
        None
    }
}
