//! The exceptions of the language, in their two spellings (Z.200, chapter on exception handling).
//!
//! It stands on `elaboration_model`, which numbers them; the checks of statements and the numbers of a program's exceptions
//! stand above it.
#![tactic(auto)]

ghost use Rattle.std.specs.Prelude.{◌≡◌};
ghost use Rattle.checks_model.specs.ActionRules.{one_spelling};
ghost use Rattle.elaboration_model.specs.Exceptions.{place_among, of_language, number_in_language};

/// The number of the first exception that isn't one of the language.
pub const FIRST_OWN_EXCEPTION: u32 = 7;

/// An exception of the language in upper case, any other as it is spelled.
pub fn one_spelling(name: &[u8]) -> &[u8]
    ensures { result.now ≡ one_spelling name.now }
{
    if name == b"overflow".as_slice() {
        b"OVERFLOW".as_slice()
    } else if name == b"rangefail".as_slice() {
        b"RANGEFAIL".as_slice()
    } else if name == b"empty".as_slice() {
        b"EMPTY".as_slice()
    } else if name == b"assertfail".as_slice() {
        b"ASSERTFAIL".as_slice()
    } else if name == b"delayfail".as_slice() {
        b"DELAYFAIL".as_slice()
    } else if name == b"spacefail".as_slice() {
        b"SPACEFAIL".as_slice()
    } else if name == b"extinct".as_slice() {
        b"EXTINCT".as_slice()
    } else {
        name
    }
}

// The number of an exception of the language in upper case.
fn number_of_upper(name: &[u8]) -> Option<u32>
    ensures { result ≡ place_among name.now of_language }
{
    if name == b"OVERFLOW".as_slice() {
        Some(0)
    } else if name == b"RANGEFAIL".as_slice() {
        Some(1)
    } else if name == b"EMPTY".as_slice() {
        Some(2)
    } else if name == b"ASSERTFAIL".as_slice() {
        Some(3)
    } else if name == b"DELAYFAIL".as_slice() {
        Some(4)
    } else if name == b"SPACEFAIL".as_slice() {
        Some(5)
    } else if name == b"EXTINCT".as_slice() {
        Some(6)
    } else {
        None
    }
}

/// The number of an exception of the language, in either spelling.
pub fn exception_of_language(spelling: &[u8]) -> Option<u32>
    ensures { result ≡ number_in_language spelling.now }
{
    number_of_upper(one_spelling(spelling))
}
