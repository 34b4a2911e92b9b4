// Words of choices of truth: which of 64 choices, in their order by number, make a part true.
ghost use Rattle.std.specs.Prelude.{◌≡◌, ◌<◌};
ghost use Rattle.tautologies.specs.Choosing.{choice_word_of};

use crate::gathering::PARTS;

// Within a word, the places of the numbers that have bit 0, and so on.
const WITHIN_WORDS: [u64; 6] = [
    0xAAAA_AAAA_AAAA_AAAA,
    0xCCCC_CCCC_CCCC_CCCC,
    0xF0F0_F0F0_F0F0_F0F0,
    0xFF00_FF00_FF00_FF00,
    0xFFFF_0000_FFFF_0000,
    0xFFFF_FFFF_0000_0000,
];

// Bit `part` of each of the 64 numbers from 64 * word on.
pub(crate) fn choice_word(word: usize, part: usize) -> u64
    requires { part < PARTS }
    ensures { result ≡ choice_word_of word part }
{
    if part < WITHIN_WORDS.len() {
        WITHIN_WORDS[part]
    } else if (word >> (part - WITHIN_WORDS.len())) % 2 == 1 {
        u64::MAX
    } else {
        0
    }
}
