//! Keywords with codes.
ghost use Rattle.std.specs.Prelude.{◌≡◌, true, Some, IfSome, Contains, length};
ghost use Rattle.smps_words.specs.Line.{fields_of};
ghost use Rattle.smps_words.specs.Words.{WordRow, rows_of, code_of, is_table};

use crate::bytes::{skip_blanks, split_field};

/// A table of different words, each with a code.
#[derive(Drop)]
pub struct Words<'a, const N: usize> {
    words: &'a [u8],
    codes: [u8; N],
    /// The words are different, as many as the codes, and a single space stands between two.
    ghost is_table: { is_table N words.now ≡ true },
}

impl<'a, const N: usize> Words<'a, N> {
    ghost use Rattle.smps_words.specs.WordRows.{rows};

    /// The table whose rows are the words, one after another, each with the code at its place.
    pub fn new(words: &'a [u8], codes: [u8; N]) -> Words<'a, N>
        requires { is_table N words.now ≡ true }
        ensures { rows result ≡ rows_of (fields_of words.now) codes.entry }
    {
        Words { words, codes }
    }

    /// The code of a word; none where the word isn't in the table.
    pub fn find(&self, word: &[u8]) -> Option<u8>
        ensures code { result ≡ code_of (rows self.now) word.now }

        // A word of the table has the code of its row and no other; what is found stands in the table.
        ensures own { (row : WordRow) → Contains (rows self.now) row → row.word ≡ word.now → result ≡ Some row.code }
        ensures found { IfSome result (λ code. Contains (rows self.now) (record { word = word.now; code = code })) }
    {
        code_of(self.words, &self.codes, word)
    }
}

/// The code at the place of the word among the words.
fn code_of(words: &[u8], codes: &[u8], word: &[u8]) -> Option<u8>
    requires { length codes.now ≡ length (fields_of words.now) }
    ensures { result ≡ code_of (rows_of (fields_of words.now) codes.now) word.now }
{
    let mut rest = skip_blanks(words);
    for code in codes {
        let (first, after) = split_field(rest);
        if word == first {
            return Some(*code);
        }
        rest = skip_blanks(after);
    }
    None
}
