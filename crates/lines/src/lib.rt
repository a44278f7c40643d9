// One line of a cutting list: a word, one blank and a number.
#![tactic(auto)]

ghost use Rattle.std.specs.Prelude.{◌≡◌};
ghost use Rattle.std.specs.List.{prefix_len, position};
ghost use Rattle.lines.specs.Lines.{word_of, in_form, numeral, is_blank, not_blank, entry_of};

use words::RowWords;

pub mod words;

// What a line begins with: `bar` gives the length of the bars, `cut` one piece, and any other word is a row of the kind
// that it names.
#[derive(Clone, Copy, PartialEq, Eq, Debug)]
pub enum Word<K> {
    Bar,
    Cut,
    Row(K),
}

// The word that the bytes spell.
fn spelled_word<W: RowWords>(text: &[u8]) -> Option<Word<W::Kind>>
    ensures { result ≡ word_of W.words text.now }
{
    match text {
        b"bar" => Some(Word::Bar),
        b"cut" => Some(Word::Cut),
        _ => W::named(text).map(|kind| Word::Row(kind)),
    }
}

// Whether there are 1 to 10 bytes, and no 0 in front of another byte.
fn short_and_plain(text: &[u8]) -> bool
    ensures { result ≡ in_form text.now }
{
    match text {
        [] => false,
        [b'0', _, ..] => false,
        _ => text.len() <= 10,
    }
}

// The number that the bytes write: 1 to 10 digits, with no zero in front of another digit.
fn number(text: &[u8]) -> Option<u64>
    ensures { result ≡ numeral text.now }
{
    if !short_and_plain(text) {
        return None;
    }
    let mut n: u64 = 0;
    for b in text {
        if !b.is_ascii_digit() {
            return None;
        }
        n = n * 10 + u64::from(*b - b'0');
    }
    Some(n)
}

// The place of the first blank.
fn first_blank(text: &[u8]) -> Option<usize>
    ensures { result ≡ position is_blank text.now }
{
    text.iter().position(|b| *b == b' ')
}

// How many bytes stand before the first blank.
fn before_blank(text: &[u8]) -> usize
    ensures { result ≡ prefix_len not_blank text.now }
{
    first_blank(text).unwrap_or(text.len())
}

// The word and the number of a line, without the byte 10 that ends it, or nothing where the line is out of form. They stay a
// pair, since every word takes its number in the same way.
pub fn entry<W: RowWords>(line: &[u8]) -> Option<(Word<W::Kind>, u64)>
    ensures { result ≡ entry_of W.words line.now }
{
    let (front, back) = line.split_at(before_blank(line));
    // A line is taken apart by `let .. else`, the form that this project keeps for it.
    let Some(word) = spelled_word::<W>(front) else {
        return None;
    };
    let [_, digits @ ..] = back else {
        return None;
    };
    let Some(number) = number(digits) else {
        return None;
    };
    Some((word, number))
}
