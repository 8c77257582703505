ghost use Rattle.std.specs.Prelude.{◌≡◌};
ghost use Rattle.krieg_theory.specs.Sets.{same};
ghost use Rattle.krieg_game.specs.Keys.{key_cmp, key_lt};

use krieg_words::{WORDS_LIMIT, Words, words_at, words_number};
use std::cmp::Ordering;
use std::marker::Model;

/// What is told of a move and of the reply to it. It is kept as one number, so that comparing takes little.
///
/// In contracts it is the key of both words.
#[derive(Clone, Copy)]
pub(crate) struct Heard {
    number: u64,
}

impl Model for Heard {
    ghost use Rattle.krieg_game.specs.Keys.{Key};

    ghost Value = { Key };

    ghost use Rattle.krieg_game.specs.PackedKey.{packed_key, unpacked_key, IsPacked};

    ghost view = { unpacked_key };

    ghost invariant = { IsPacked };

    ghost inverse = { packed_key };

    ghost inverse_ok = { λ a h. h.exact };
}

impl Heard {
    /// These words.
    #[inline]
    pub fn new(own: &Words, reply: &Words) -> Heard
        ensures { result ≡ (own.now, reply.now) }
    {
        Heard {
            number: words_number(own) * WORDS_LIMIT + words_number(reply),
        }
    }

    /// What is told of the own move.
    pub fn own(&self) -> Words
        ensures { result ≡ self.now.0 }
    {
        words_at(self.number / WORDS_LIMIT)
    }

    /// What is told of the reply.
    pub fn reply(&self) -> Words
        ensures { result ≡ self.now.1 }
    {
        words_at(self.number % WORDS_LIMIT)
    }

    /// Whether both are told alike.
    #[inline]
    pub fn is(&self, other: &Heard) -> bool
        ensures { result ≡ same key_lt self.now other.now }
    {
        self.number == other.number
    }

    /// The order of keys.
    #[inline]
    pub fn compare(&self, other: &Heard) -> Ordering
        ensures { result ≡ key_cmp self.now other.now }
    {
        self.number.cmp(&other.number)
    }
}
