//! What readers of words answer is what the grammar says. The functions do nothing: their contracts are the laws.
ghost use Rattle.std.specs.Prelude.{ℕ};
ghost use Rattle.packet_view.specs.declared.tuple.Family.{Family};
ghost use Rattle.acl_policy.specs.Numerals.{IsNumber, IsOctet};
ghost use Rattle.acl_policy.specs.Prefixes.{IsAddress, IsMac, IsPrefix};
ghost use Rattle.acl_policy.specs.Readers.{IsCut, IsNext, IsNumberUpTo, IsReaderOf};
ghost use Rattle.acl_policy.specs.Traffic.{IsFlags, IsProtocol, IsRange, IsTraffic};
ghost use Rattle.acl_policy.specs.inner.WordReading.{next_in};
ghost use Rattle.acl_policy.specs.inner.WordReading.Numerals.{cut_in, number_in, octet_in};
ghost use Rattle.acl_policy.specs.inner.WordReading.Prefixes.{address_in, mac_in, prefix_in};
ghost use Rattle.acl_policy.specs.inner.WordReading.Traffic.{flags_in, number_up_to_in, protocol_in, range_in, traffic_in};

/// What `number_of`, `number_up_to`, `octet_of`, `address_of`, `prefix_of`, `mac_of`, `cut_at` and `next_word` answer by
/// their contracts is a value exactly where the grammar relates that value to the words.
pub fn words_are_read_as_the_grammar_says()
    ensures number { IsReaderOf IsNumber number_in }
    ensures number_up_to { (most : ℕ) → IsReaderOf (IsNumberUpTo most) (number_up_to_in most) }
    ensures octet { IsReaderOf IsOctet octet_in }
    ensures address { (family : Family) → IsReaderOf (IsAddress family) (address_in family) }
    ensures prefix { (family : Family) → IsReaderOf (IsPrefix family) (prefix_in family) }
    ensures mac { IsReaderOf IsMac mac_in }
    ensures cut { (byte : ℕ) → IsReaderOf (IsCut byte) (cut_in byte) }
    ensures next { IsReaderOf IsNext next_in }
{}

/// The same of the readers of what follows a rule's prefixes: `protocol_of`, `range_of`, `flags_of_word` and `traffic_of`.
pub fn traffic_is_read_as_the_grammar_says()
    ensures protocol { (family : Family) → IsReaderOf (IsProtocol family) (protocol_in family) }
    ensures range { (most : ℕ) → IsReaderOf (IsRange most) (range_in most) }
    ensures flags { IsReaderOf IsFlags flags_in }
    ensures traffic { (family : Family) → IsReaderOf (IsTraffic family) (traffic_in family) }
{}
