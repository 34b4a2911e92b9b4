// The lines of a listing.
ghost use Rattle.std.specs.Prelude.{◌≡◌, ◌+◌, ◌≤◌, ◌++◌, length, decimal, [], MatchOption, Ok, Err};
ghost use Rattle.listing.specs.Listing.{line, line_of_counts, line_of_standing, line_of_ending};
ghost use Rattle.listing.specs.declared.text.TheConstants.{TEXT_MOST, DIGITS_MOST};

use crate::text::Text;
use crate::unread::Unread;
use cases::{Counts, Standing};

// How many of each a case has.
#[tactic(auto, unfolding(crate::specs::Listing::line_of_counts))]
pub(crate) fn counts_line(counts: Counts) -> Text
    ensures { result ≡ line_of_counts counts }
{
    let mut line = Text::new();
    line.add_field(b"formulas ", counts.formulas);
    line.add_field(b" assumptions ", counts.assumptions);
    line.add_field(b" lines ", counts.lines);
    line.add_field(b" refutations ", counts.refutations);
    line.end();
    line
}

// The line of the formula with a number, by how it stands: none for an open one. Inlined, so that for an open one, as most are, no
// room for a text is taken and copied.
#[inline(always)]
#[tactic(auto, unfolding(crate::specs::Listing::line_of_standing))]
pub(crate) fn standing_line(number: u16, standing: Standing) -> Option<Text>
    ensures { MatchOption result (line_of_standing number (Ok standing) ≡ []) (λ text. text ≡ line_of_standing number (Ok standing)) }
{
    match standing {
        Standing::Derived(first) => Some(settled_line(number, b" derived ", first)),
        Standing::Refuted(first) => Some(settled_line(number, b" refuted ", first)),
        Standing::Open => None,
    }
}

// The line of a formula that is not open: its number, a word for how it stands, and the number that it stands by.
// There has to be room for the word, two numbers and the end.
fn settled_line(number: u16, word: &[u8], first: u16) -> Text
    requires { length word.now + DIGITS_MOST + DIGITS_MOST + 1 ≤ TEXT_MOST }
    ensures { result ≡ line (decimal number ++ word.now ++ decimal first) }
{
    let mut line = Text::new();
    line.add_field(b"", usize::from(number));
    line.add_field(word, usize::from(first));
    line.end();
    line
}

// How the reading of a file ended.
pub(crate) fn ending_line(ending: Result<usize, Unread>) -> Text
    ensures { result ≡ line_of_ending ending }
{
    match ending {
        Ok(length) => length_line(length),
        Err(unread) => refusal_line(unread),
    }
}

// The line of a file that was read to its end: its length.
#[tactic(auto, unfolding(crate::specs::Listing::line_of_ending))]
fn length_line(length: usize) -> Text
    ensures { result ≡ line_of_ending (Ok length) }
{
    let mut line = Text::new();
    line.add_field(b"read ", length);
    line.end();
    line
}

// The line of any other file: what was refused and where, or that it is too long.
#[tactic(auto, unfolding(crate::specs::Listing::line_of_ending))]
fn refusal_line(unread: Unread) -> Text
    ensures { result ≡ line_of_ending (Err unread) }
{
    let mut line = Text::new();
    match unread {
        Unread::TooLong => line.add(b"too long"),
        Unread::Refused(fault) => {
            line.add_field(b"refused ", usize::from(fault.layer()));
            line.add_field(b" ", usize::from(fault.number()));
            line.add_field(b" ", fault.offset);
        }
    }
    line.end();
    line
}
