//! Bytes cut into words and numbers.
ghost use Rattle.std.specs.Prelude.{◌≡◌};
ghost use Rattle.tape.specs.Words.{before, after, trimmed_of, numbers_of};

use sheet::number::read_number;

pub(crate) const SPACE: u8 = b' ';

/// What stands before the first `at`, and what stands after it.
pub(crate) fn cut(text: &[u8], at: u8) -> (&[u8], &[u8])
    ensures before { result.0.now ≡ before at text.now }
    ensures after { result.1.now ≡ after at text.now }
{
    match text.iter().position(|b| *b == at) {
        Some(i) => (&text[..i], &text[i + 1..]),
        None => (text, &[]),
    }
}

/// The text without the spaces in front.
pub(crate) fn trimmed(text: &[u8]) -> &[u8]
    ensures { result.now ≡ trimmed_of text.now }
{
    let spaces = text.iter().position(|b| *b != SPACE).unwrap_or(text.len());
    &text[spaces..]
}

/// The numbers of a text that has just so many.
pub(crate) fn numbers<const N: usize>(text: &[u8]) -> Option<[u64; N]>
    ensures { result ≡ numbers_of N text.now }
{
    let mut numbers = [0; N];
    let mut rest = text;
    for number in numbers.iter_mut() {
        let (word, after) = cut(trimmed(rest), SPACE);
        *number = read_number(word)?;
        rest = after;
    }
    trimmed(rest).is_empty().then_some(numbers)
}
