//! The bytes of the capture after the marker line.
ghost use Rattle.std.specs.Prelude.{◌≡◌, ◌⊎◌, ℕ, List, IfOk, IfErr};
ghost use Rattle.racl_io.specs.declared.fault.Fault.TheVariants.{Memory, Hex};
ghost use Rattle.racl_io.specs.Inputs;
ghost use Rattle.racl_io.specs.Inputs.{IsContent, digits_of};
ghost use Rattle.racl_io.specs.declared.marker_line.Form.TheVariants.{Hexadecimal};

use crate::fault::Fault;
use hex::FromHexError;
use std::alloc::{AllocError, Global};

/// Whether this byte is a blank, which isn't looked at where hexadecimal digits are decoded.
pub fn is_blank(b: u8) -> bool
    ensures { result ≡ Inputs.is_blank b }
{
    matches!(b, b' ' | b'\t' | b'\n' | b'\r')
}

// What is decoded as hexadecimal digits: these bytes without the blanks among them.
fn digits_to_decode(alloc: Global, content: &[u8]) -> Result<Vec<u8>, AllocError>
    ensures { IfOk result (λ v. v.items ≡ digits_of content.now) }
{
    content
        .iter()
        .copied()
        .filter(|b| !is_blank(*b))
        .collect(alloc)
}

/// The bytes that hexadecimal digits stand for, two digits a byte, high digit first; spaces, tabs,
/// carriage returns and line feeds among them aren't looked at.
pub fn decode_digits(alloc: Global, content: &[u8]) -> Result<Vec<u8>, Fault>
    ensures ok { IfOk result (λ v. IsContent Hexadecimal content.now v.items) }
    ensures err { IfErr result (λ e. (e ≡ Memory) ⊎ ((e ≡ Hex) × ((capture : List ℕ) → IsContent Hexadecimal content.now capture → ⊥))) }
{
    let digits = digits_to_decode(alloc, content)?;
    match hex::decode(alloc, &digits) {
        Ok(bytes) => Ok(bytes),
        Err(FromHexError::OutOfMemory) => Err(Fault::Memory),
        Err(_) => Err(Fault::Hex),
    }
}
