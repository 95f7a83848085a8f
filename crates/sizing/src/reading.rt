// Reading a line, `key-bytes data-bytes count`, from its bytes.
ghost use Rattle.std.specs.Prelude.{◌≡◌, ◌^◌, ◌<◌, ◌≤◌, false, length, IfOk, MatchOption};
ghost use Rattle.sizing.specs.Words.{blank, first_word, after_word, all_digits, decimal};
ghost use Rattle.sizing.specs.Fields.{most_of};
ghost use Rattle.sizing.specs.Lines.{field_in, three_words, ThreeWords, kind_in};

use super::{Fault, Field, Kind};

// The compiler makes one test of these four, and several branches of a `matches!`.
fn is_blank(byte: u8) -> bool
    ensures { result ≡ blank byte }
{
    byte == b' ' || byte == b'\t' || byte == b'\r' || byte == b'\n'
}

// The first word of a line, and what follows it.
fn first_word(line: &[u8]) -> (&[u8], &[u8])
    ensures word { result.0.now ≡ first_word line.now }
    ensures rest { result.1.now ≡ after_word line.now }
{
    let start = line
        .iter()
        .position(|byte| !is_blank(*byte))
        .unwrap_or(line.len());
    let tail = &line[start..];
    let end = tail
        .iter()
        .position(|byte| is_blank(*byte))
        .unwrap_or(tail.len());
    tail.split_at(end)
}

// The three words of a line that has three.
fn three_words(line: &[u8]) -> Option<(&[u8], &[u8], &[u8])>
    ensures { MatchOption result (three_words line.now ≡ false) (λ words. ThreeWords line.now words.0.now words.1.now words.2.now) }
{
    let (key, after_key) = first_word(line);
    let (block, after_block) = first_word(after_key);
    let (count, after_count) = first_word(after_block);
    let (more, _) = first_word(after_count);
    if count.is_empty() || !more.is_empty() {
        return None;
    }
    Some((key, block, count))
}

// Every byte is one of the digits `0` to `9`.
fn is_number(word: &[u8]) -> bool
    ensures { result ≡ all_digits word.now }
{
    word.iter().all(|byte| byte.is_ascii_digit())
}

// Proved by `str::from_utf8` and `parse` too, but `capacity` then takes 1.15 to 1.18 times the instructions.
// The number that a word of digits writes, unless it passes 64 bits.
fn value(word: &[u8]) -> Option<u64>
    ensures { MatchOption result (2 ^ 64 ≤ decimal word.now) (λ v. v ≡ decimal word.now) }
{
    let mut value = 0u64;
    for byte in word {
        let digit = u64::from(byte.saturating_sub(b'0'));
        value = value.checked_mul(10)?.checked_add(digit)?;
    }
    Some(value)
}

fn read_field(field: Field, word: &[u8]) -> Result<u64, Fault>
    ensures value { result ≡ field_in field word.now }
    ensures bound { IfOk result (λ v. v ≤ most_of field) }
{
    if !is_number(word) {
        return Err(Fault::NotNumber(field));
    }
    match value(word) {
        Some(number) if (field.least()..=field.most()).contains(&number) => Ok(number),
        _ => Err(Fault::OutOfRange(field)),
    }
}

impl Kind {
    // The kind of record that a line tells of, or the first thing that is wrong with the line.
    pub fn read(line: &[u8]) -> Result<Kind, Fault>
        ensures { result ≡ kind_in line.now }
    {
        let (key, block, count) = three_words(line).ok_or(Fault::Words)?;
        let key = read_field(Field::Key, key)? as u32;
        let block = read_field(Field::Block, block)? as u32;
        let count = read_field(Field::Count, count)?;
        Ok(Kind { key, block, count })
    }
}

impl TryFrom<&[u8]> for Kind {
    type Error = Fault;

    ghost try_from_gives = { λ line result. result ≡ kind_in line.now };

    fn try_from(line: &[u8]) -> Result<Kind, Fault> {
        Kind::read(line)
    }
}
