//! The version of the interface.
ghost use Rattle.std.specs.Prelude.{◌≡◌};

/// The version of the interface: 1,000 times its first number, plus its second.
pub fn version() -> u32
    ensures { result ≡ 2000 }
{
    2000
}
