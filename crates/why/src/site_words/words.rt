// What the arguments ask for: nothing, one site's number, or two; a number is decimal digits alone, with a value below 2^32.
ghost use Rattle.std.specs.Prelude.{◌≡◌};
ghost use Rattle.why.specs.site_words.Words.{is_digit, site_word, ask_one, ask_two, command_of};

use reasons::Question;

const TOP: u64 = 0x1_0000_0000;

fn is_digit(c: u8) -> bool
    ensures { result ≡ is_digit c }
{
    if c < 48 {
        return false;
    }
    c <= 57
}

// A word as a site's number, if it is one.
fn read_word(word: &[u8]) -> Option<u32>
    ensures { result ≡ site_word word.now }
{
    if word.is_empty() {
        return None;
    }
    let mut v: u64 = 0;
    for c in word {
        if !is_digit(*c) {
            return None;
        }
        v = v * 10 + (*c - 48) as u64;
        if v >= TOP {
            return None;
        }
    }
    Some(v as u32)
}

fn ask_one(a: Option<u32>) -> Option<Question>
    ensures { result ≡ ask_one a }
{
    Some(Question::About(a?))
}

fn ask_two(a: Option<u32>, b: Option<u32>) -> Option<Question>
    ensures { result ≡ ask_two a b }
{
    Some(Question::Between(a?, b?))
}

// What is asked, if the program takes the words: by how many there are, its own name among them, and the two after it.
#[tactic(auto, unfolding(crate::specs::site_words::Words::command_of))]
pub fn command_of(count: usize, first: &[u8], second: &[u8]) -> Option<Question>
    ensures { result ≡ command_of count first.now second.now }
{
    match count {
        0 | 1 => Some(Question::Nothing),
        2 => ask_one(read_word(first)),
        3 => ask_two(read_word(first), read_word(second)),
        _ => None,
    }
}
