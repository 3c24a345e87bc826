//! Numbers as digits.
ghost use Rattle.std.specs.Prelude.{◌≡◌, ◌≤◌, ◌<◌, ◌^◌, IfSome};
ghost use Rattle.acl_policy.specs.inner.WordReading.Numerals.{group_in, number_in, numeral_in, octet_in, pair_in};
ghost use Rattle.acl_policy.specs.inner.WordReading.Traffic.{number_up_to_in};

/// The number that at least one and at most so many digits in a base spell. `None`: they don't.
#[tactic(auto, unfolding(crate::specs::inner::WordReading::Numerals::numeral_in))]
fn numeral_of(word: &[u8], base: u32, most: usize) -> Option<u32>
    requires digits { 2 ≤ base }
    requires small_base { base ≤ 16 }
    requires few { most ≤ 5 }
    ensures value { result ≡ numeral_in base most word.now }
    ensures fits { IfSome result (λ number. number < 16 ^ most) }
{
    if word.is_empty() || word.len() > most {
        return None;
    }
    let mut number = 0;
    for byte in word {
        number = number * base + char::from(*byte).to_digit(base)?;
    }
    Some(number)
}

/// The number that one to five decimal digits spell.
#[tactic(auto, unfolding(crate::specs::inner::WordReading::Numerals::number_in))]
pub fn number_of(word: &[u8]) -> Option<u32>
    ensures { result ≡ number_in word.now }
{
    numeral_of(word, 10, 5)
}

/// An end of a range, or another number of a policy: one to five digits, and no more than `most`.
#[tactic(auto, unfolding(crate::specs::inner::WordReading::Traffic::number_up_to_in))]
pub fn number_up_to(word: &[u8], most: u16) -> Option<u16>
    ensures value { result ≡ number_up_to_in most word.now }
    ensures within { IfSome result (λ number. number ≤ most) }
{
    let number = number_of(word)?;
    if number <= u32::from(most) {
        Some(number as u16)
    } else {
        None
    }
}

/// The number that one to three decimal digits spell, at most 255: a part of an IPv4 address, or the number of a
/// capture's interface.
#[tactic(auto, unfolding(crate::specs::inner::WordReading::Numerals::octet_in))]
pub fn octet_of(word: &[u8]) -> Option<u8>
    ensures { result ≡ octet_in word.now }
{
    let number = numeral_of(word, 10, 3)?;
    u8::try_from(number).ok()
}

/// The number that one to four hexadecimal digits spell: a group of an IPv6 address.
#[tactic(auto, unfolding(crate::specs::inner::WordReading::Numerals::group_in))]
pub fn group_of(word: &[u8]) -> Option<u16>
    ensures { result ≡ group_in word.now }
{
    let number = numeral_of(word, 16, 4)?;
    Some(number as u16)
}

/// Parses the number that two hexadecimal digits of a policy's word spell.
#[tactic(auto, unfolding(crate::specs::inner::WordReading::Numerals::pair_in))]
pub fn hex_pair_of(word: &[u8]) -> Option<u8>
    ensures { result ≡ pair_in word.now }
{
    if word.len() != 2 {
        return None;
    }
    let number = numeral_of(word, 16, 2)?;
    Some(number as u8)
}
