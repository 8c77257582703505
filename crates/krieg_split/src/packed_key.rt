ghost use Rattle.std.specs.Prelude.{◌≡◌};

use krieg_words::{WORDS_LIMIT, Words, words_at, words_number};
use std::marker::Model;

/// The words that may be heard of a try, and those of a reply. 5 bytes in memory.
///
/// In contracts a `PackedKey` is the pair of these words. The bytes are the number of the pair to the base 256, the highest first.
#[derive(Clone, Copy)]
pub struct PackedKey {
    first: u8,
    second: u8,
    third: u8,
    fourth: u8,
    fifth: u8,
}

impl Model for PackedKey {
    ghost use Rattle.krieg_game.specs.Keys.{Key};

    ghost Value = { Key };

    ghost use Rattle.krieg_split.specs.PackedKey.{packed, unpacked, IsPacked};

    ghost view = { unpacked };

    ghost invariant = { IsPacked };

    ghost inverse = { packed };

    ghost inverse_ok = { λ a h. h.exact };
}

impl PackedKey {
    /// These words, packed.
    #[inline(never)]
    pub fn new(own: &Words, reply: &Words) -> PackedKey
        ensures { result ≡ (own.now, reply.now) }
    {
        let number = words_number(own) * WORDS_LIMIT + words_number(reply);
        PackedKey {
            first: (number / 4_294_967_296) as u8,
            second: (number / 16_777_216 % 256) as u8,
            third: (number / 65_536 % 256) as u8,
            fourth: (number / 256 % 256) as u8,
            fifth: (number % 256) as u8,
        }
    }

    /// The words of the try and those of the reply.
    #[tactic(auto, unfolding(krieg_game::specs::KeyNumbers::key_at))]
    pub fn words(&self) -> (Words, Words)
        ensures { result ≡ self.now }
    {
        let high = self.first as u64 * 65_536 + self.second as u64 * 256 + self.third as u64;
        let number = high * 65_536 + self.fourth as u64 * 256 + self.fifth as u64;
        (
            words_at(number / WORDS_LIMIT),
            words_at(number % WORDS_LIMIT),
        )
    }
}
