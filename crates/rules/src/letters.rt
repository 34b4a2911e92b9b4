// The formulas that stand for the letters of a rule.
ghost use Rattle.std.specs.Prelude.{◌≡◌};
ghost use Rattle.rules.specs.Matching.{with_letter};

// The most letters that a rule has: A, B and C.
pub(crate) const LETTERS: usize = 3;

// What stands for each of them, by number, as far as it is known.
pub(crate) type Letters = [Option<u16>; LETTERS];

// The letters with a formula for one of them. None if another formula stands for it, or there is no such letter.
pub(crate) fn with_letter(letters: Letters, letter: u8, number: u16) -> Option<Letters>
    ensures { result ≡ with_letter letters letter number }
{
    let index = usize::from(letter);
    let known = *letters.get(index)?;
    if known.is_some_and(|other| other != number) {
        return None;
    }
    let mut more = letters;
    more[index] = Some(number);
    Some(more)
}
