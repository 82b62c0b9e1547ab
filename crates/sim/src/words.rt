// The words of a line.
use std::{array, str};

// How many words of a line are looked at: no form has more than six.
const MOST: usize = 7;

// The words of a text, from a place on.
#[derive(Clone, Copy)]
struct Words<'a> {
    text: &'a [u8],
    at: usize,
}

impl<'a> Iterator for Words<'a> {
    type Item = &'a str;

    fn next(&mut self) -> Option<&'a str> {
        if self.text.len() <= self.at {
            return None;
        }
        let span = text::token(self.text, self.at);
        if span.start == span.end {
            // No word is left: what follows is not read again at each of the calls that are still to come.
            self.at = self.text.len();
            return None;
        }
        self.at = span.end;
        str::from_utf8(self.text.get(span.start..span.end)?).ok()
    }
}

// The first words of a text, and nothing behind the last one.
// Seven places and no Vec: a line takes no memory that may not be there; a word is never empty.
pub(crate) fn first_words<'a>(text: &'a [u8]) -> [&'a str; MOST] {
    let mut words = Words { text, at: 0 };
    array::from_fn(|_| words.next().unwrap_or_default())
}

// The words before the first one that is nothing.
pub(crate) fn until_empty<'a, 'b>(words: &'b [&'a str]) -> &'b [&'a str] {
    match words.iter().position(|word| word.is_empty()) {
        Some(count) => &words[..count],
        None => words,
    }
}
