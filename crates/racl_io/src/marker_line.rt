//! The parts of the input: a policy text, a marker line, and the capture as bytes or as digits; or the captures of several
//! interfaces as digits, each after a marker line with its interface's number.
ghost use Rattle.std.specs.Prelude.{◌≡◌, ◌≢◌, ◌<◌, ◌++◌, ℕ, List, IfSome, IfNone, codes, length, slice_index};
ghost use Rattle.racl_io.specs.Inputs.{Counts, InputFacts, input_facts, AreCutDigits, IsInput, IsMarker, IsParted, IsFirstLine, IsWord, HasNoFeed, numbered_facts};

use acl_policy::octet_of;

/// How the capture is written after its marker line.
#[derive(Clone, Copy, Debug, PartialEq, Eq)]
pub enum Form {
    /// As it is, after `pcap`.
    Binary,
    /// As hexadecimal digits, after `hex`.
    Hexadecimal,
    /// As hexadecimal digits of the capture that was taken at the interface with this number, after `hex` and that
    /// number. Further ones may follow.
    Numbered(u8),
}

/// Which marker lines count.
#[derive(Clone, Copy)]
enum Marks {
    Every,
    /// Those with a number.
    Numbers,
}

/// The parts of an input.
#[derive(Clone, Copy)]
pub struct Input<'a> {
    pub policy: &'a [u8],
    pub form: Form,
    pub content: &'a [u8],
}

/// A marker line with a number, and what follows it.
#[derive(Clone, Copy)]
pub struct Numbered<'a> {
    pub interface: u8,
    pub content: &'a [u8],
}

/// The digits of a capture, and what ends them.
#[derive(Clone, Copy)]
pub struct Digits<'a> {
    pub digits: &'a [u8],
    /// The next marker line with a number; None where the digits end with the input.
    pub next: Option<Numbered<'a>>,
}

// What follows `hex` and a space in the word of a marker line.
fn after_hex(word: &[u8]) -> Option<&[u8]>
    ensures some { IfSome result (λ rest. word.now ≡ codes "hex " ++ rest.now) }
    ensures none { IfNone result ((rest : List ℕ) → word.now ≡ codes "hex " ++ rest → ⊥) }
{
    if word.len() < 4 || &word[..4] != b"hex ".as_slice() {
        return None;
    }
    Some(&word[4..])
}

// The number in a marker line's word.
fn interface_of(word: &[u8]) -> Option<u8>
    ensures some { IfSome result (λ number. IsWord (Form.Numbered number) word.now) }
    ensures none { IfNone result ((number : ℕ) → IsWord (Form.Numbered number) word.now → ⊥) }
{
    octet_of(after_hex(word)?)
}

// What a marker line's word says that has no number.
fn plain_form(word: &[u8]) -> Option<Form>
    ensures some { IfSome result (λ form. IsWord form word.now) }
    ensures none { IfNone result ((word.now ≢ codes "pcap") × (word.now ≢ codes "hex")) }
{
    match word {
        b"pcap" => Some(Form::Binary),
        b"hex" => Some(Form::Hexadecimal),
        _ => None,
    }
}

// What a marker line's word says, where such lines count.
fn form_of(word: &[u8], marks: Marks) -> Option<Form>
    ensures some { IfSome result (λ form. Counts marks form × IsWord form word.now) }
    ensures none { IfNone result ((form : Form) → Counts marks form → IsWord form word.now → ⊥) }
{
    if let Some(number) = interface_of(word) {
        return Some(Form::Numbered(number));
    }
    match marks {
        Marks::Every => plain_form(word),
        Marks::Numbers => None,
    }
}

// What a line says where it is a marker line that counts.
fn marker(line: &[u8], marks: Marks) -> Option<Form>
    ensures some { IfSome result (λ form. Counts marks form × IsMarker form line.now) }
    ensures none { IfNone result ((form : Form) → Counts marks form → IsMarker form line.now → ⊥) }
{
    if let Some(form) = form_of(line, marks) {
        return Some(form);
    }
    let Some((b'\r', word)) = line.split_last() else {
        return None;
    };
    form_of(word, marks)
}

/// The first line feed: what stands before it may be a marker line.
fn line_feed(bytes: &[u8]) -> Option<usize>
    ensures within { IfSome result (λ i. i < length bytes.now) }
    ensures found { IfSome result (λ i. slice_index bytes.now i ≡ 10) }
    ensures first { IfSome result (λ i. (k : ℕ) → k < i → slice_index bytes.now k ≢ 10) }
    ensures none { IfNone result ((k : ℕ) → k < length bytes.now → slice_index bytes.now k ≢ 10) }
{
    bytes.iter().position(|b| *b == b'\n')
}

/// The first line, which may be a marker line, without its line feed, and what follows it; None where no line ends.
fn first_line(bytes: &[u8]) -> Option<(&[u8], &[u8])>
    ensures some { IfSome result (λ r. IsFirstLine bytes.now r.0.now r.1.now) }
    ensures none { IfNone result (HasNoFeed bytes.now) }
{
    let len = line_feed(bytes)?;
    Some((&bytes[..len], &bytes[len + 1..]))
}

// The parts of these bytes, cut at the first marker line that counts.
fn parted_at_marker(bytes: &[u8], marks: Marks) -> Option<Input<'_>>
    ensures some { IfSome result (λ input. IsParted marks bytes.now (input_facts input)) }
    ensures none { IfNone result ((parts : InputFacts) → IsParted marks bytes.now parts → ⊥) }
{
    let mut rest = bytes;
    'lines: while let Some((line, after)) = first_line(rest) {
        if let Some(form) = marker(line, marks) {
            return Some(Input {
                policy: &bytes[..bytes.len() - rest.len()],
                form,
                content: after,
            });
        }
        rest = after;
    }
    let form = form_of(rest, marks)?;
    Some(Input {
        policy: &bytes[..bytes.len() - rest.len()],
        form,
        content: &[],
    })
}

/// The parts of an input, cut at its first marker line; None where it has none.
///
/// A line ends with a line feed, and one carriage return before it is dropped. A marker word may
/// also end the input.
pub fn split_input(bytes: &[u8]) -> Option<Input<'_>>
    ensures some { IfSome result (λ input. IsInput bytes.now (input_facts input)) }
    ensures none { IfNone result ((parts : InputFacts) → IsInput bytes.now parts → ⊥) }
{
    parted_at_marker(bytes, Marks::Every)
}

/// Cuts what follows a marker line with a number: into the digits of its capture, and the next such line with what
/// follows it.
pub fn cut_at_numbered_marker(content: &[u8]) -> Digits<'_>
    ensures cut { AreCutDigits content.now result.digits.now (numbered_facts result.next) }
    ensures shorter { IfSome result.next (λ next. length next.content.now < length content.now) }
{
    let Some(cut) = parted_at_marker(content, Marks::Numbers) else {
        return Digits {
            digits: content,
            next: None,
        };
    };
    let Form::Numbered(interface) = cut.form else {
        unreachable!()
    };
    let next = Some(Numbered {
        interface,
        content: cut.content,
    });
    Digits {
        digits: cut.policy,
        next,
    }
}
