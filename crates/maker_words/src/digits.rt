ghost use Rattle.std.specs.Prelude.{◌≡◌};
ghost use Rattle.std.specs.Char.{is_ascii_digit};
ghost use Rattle.std.specs.List.{list_all};
ghost use Rattle.script_words.specs.Numbers.{number_spelled};

/// The most digits of a number.
const DIGITS_MOST: usize = 10;

fn are_digits(word: &[u8]) -> bool
    ensures { result ≡ list_all is_ascii_digit word.now }
{
    word.iter().all(|byte| byte.is_ascii_digit())
}

/// The number that a word spells, as a word of a script spells one.
#[tactic(auto, unfolding(script_words::specs::Numbers::number_spelled))]
pub fn number(word: &str) -> Option<u32>
    ensures { result ≡ number_spelled word.now }
{
    if word.len() > DIGITS_MOST {
        return None;
    }
    if !are_digits(word.as_bytes()) {
        return None;
    }
    word.parse().ok()
}
