// How many words of a set stand in the bytes, and how many bytes a label and a range then have.
ghost use Rattle.std.specs.Prelude.{◌≡◌, ◌≤◌};
ghost use Rattle.label.specs.Words.{words as set_words};
ghost use Rattle.label_codec.specs.Body.{label_size, range_size};
ghost use Rattle.label_codec.specs.Codec.{width};

use label::words::WORDS;

#[derive(Clone, Copy)]
pub(crate) struct Width {
    pub(crate) words: usize,
    ghost within: { words ≤ set_words },
}

impl Width {
    // As many as are asked for, and no more than a set has.
    pub(crate) fn of(words: usize) -> Width
        ensures { result.words ≡ width words }
    {
        Width {
            words: words.min(WORDS),
        }
    }

    // A label is its hierarchy, then the words of its set.
    pub(crate) fn label_size(self) -> usize
        ensures { result ≡ label_size self.words }
    {
        1 + 8 * self.words
    }

    // A range is two labels.
    pub(crate) fn range_size(self) -> usize
        ensures { result ≡ range_size self.words }
    {
        self.label_size() + self.label_size()
    }
}
