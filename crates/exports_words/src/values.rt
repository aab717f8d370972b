// A value as words, at most three, with zeros after them. A float goes out beside the words. An impl for each width: one over `Into<u64>`
// would be one for i32 too.
ghost use Rattle.std.specs.Prelude.{◌≡◌, List, ℕ, get_or, [], ◌∷◌};
ghost use Rattle.std.specs.Int.{w32};
ghost use Rattle.exports_words.specs.Words.{none, one, flag_word, signed_word, window_words, pattern_words};

use bitio_window::{Decoded, F32, F64, Window};

pub trait Value {
    ghost words: { Self → List ℕ };

    fn words(self) -> [u64; 3]
        ensures { result ≡ get_or (words self) 0 0 ∷ get_or (words self) 1 0 ∷ get_or (words self) 2 0 ∷ [] };
}

impl Value for () {
    ghost words = { none };

    fn words(self) -> [u64; 3] {
        [0, 0, 0]
    }
}

impl Value for bool {
    ghost words = { flag_word };

    fn words(self) -> [u64; 3] {
        [self as u64, 0, 0]
    }
}

impl Value for u8 {
    ghost words = { one };

    fn words(self) -> [u64; 3] {
        u16::from(self).words()
    }
}

impl Value for u16 {
    ghost words = { one };

    fn words(self) -> [u64; 3] {
        u32::from(self).words()
    }
}

impl Value for u32 {
    ghost words = { one };

    fn words(self) -> [u64; 3] {
        u64::from(self).words()
    }
}

impl Value for u64 {
    ghost words = { one };

    fn words(self) -> [u64; 3] {
        [self, 0, 0]
    }
}

impl Value for i32 {
    ghost words = { signed_word };

    fn words(self) -> [u64; 3] {
        [self.cast_unsigned() as u64, 0, 0]
    }
}

impl Value for F32 {
    ghost words = { pattern_words };

    fn words(self) -> [u64; 3] {
        match self {
            Decoded::Number(_) => [0, 0, 0],
            Decoded::NoNumber(bits) => [1, bits as u64, 0],
        }
    }
}

impl Value for F64 {
    ghost words = { pattern_words };

    fn words(self) -> [u64; 3] {
        match self {
            Decoded::Number(_) => [0, 0, 0],
            Decoded::NoNumber(bits) => [1, bits, 0],
        }
    }
}

impl Value for Window {
    ghost words = { window_words };

    fn words(self) -> [u64; 3] {
        let Window {
            start,
            position,
            length,
        } = self;
        [start.0, position.0, length]
    }
}
