//! Which version this is.
ghost use Rattle.std.specs.Prelude.{◌≡◌};

/// The version as a number, of which three digits each are the second and the third part.
#[unsafe(no_mangle)]
pub extern "C" fn racl_version() -> u32
    ensures { result ≡ 1000 }
{
    1000
}
