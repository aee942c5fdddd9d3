//! Exported to C and Rust: the version of the interface, in the name of a symbol.
//!
//! The header and the Rust crate refer to the symbol, so that a library of another version does not link. The number is raised when
//! a record, a signature or the meaning of a number changes, not when a call is added; tests/declarations.py checks this.
ghost use Rattle.std.specs.Prelude.{◌≡◌};

/// Returns the version of the interface, 4.
#[unsafe(no_mangle)]
pub extern "C" fn pw_interface_4() -> u32
    ensures { result ≡ 4 }
{
    4
}
