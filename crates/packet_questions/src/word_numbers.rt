//! The numbers of a packet's words: seconds, and flags.
ghost use Rattle.std.specs.Prelude.{◌≡◌, ◌≤◌, ◌<◌, ◌^◌, IfSome};
ghost use Rattle.acl_policy.specs.inner.WordReading.Numerals.{numeral_in, pair_in};
ghost use Rattle.packet_questions.specs.inner.Reading;

// The number that at least one and at most so many digits in a base spell. `None`: they don't.
#[tactic(auto, unfolding(acl_policy::specs::inner::WordReading::Numerals::numeral_in))]
fn long_numeral_of(word: &[u8], base: u32, most: usize) -> Option<u64>
    requires digits { 2 ≤ base }
    requires small_base { base ≤ 16 }
    requires few { most ≤ 10 }
    ensures value { result ≡ numeral_in base most word.now }
    ensures fits { IfSome result (λ number. number < 16 ^ most) }
{
    if word.is_empty() || word.len() > most {
        return None;
    }
    let mut number = 0;
    for byte in word {
        number = number * u64::from(base) + u64::from(char::from(*byte).to_digit(base)?);
    }
    Some(number)
}

/// The second that one to ten decimal digits spell.
#[tactic(auto, unfolding(crate::specs::inner::Reading::second_in))]
pub fn second_of(word: &[u8]) -> Option<u32>
    ensures { result ≡ Reading.second_in word.now }
{
    let second = long_numeral_of(word, 10, 10)?;
    u32::try_from(second).ok()
}

/// The flags that two hexadecimal digits spell.
#[tactic(auto, unfolding(acl_policy::specs::inner::WordReading::Numerals::pair_in))]
pub fn flags_of(word: &[u8]) -> Option<u8>
    ensures { result ≡ pair_in word.now }
{
    if word.len() != 2 {
        return None;
    }
    let flags = long_numeral_of(word, 16, 2)?;
    Some(flags as u8)
}
