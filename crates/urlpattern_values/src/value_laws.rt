//! Laws of percent-encoded values.
//!
//! Each function does nothing; what its contract promises is a theorem.

ghost use Rattle.urlpattern_values.specs.LawsOfValues.{EncodedValuesAreDecoded, EncodedValuesHaveNoDelimiters};

/// A value, percent-encoded and then decoded, is the value.
pub fn encoded_values_are_decoded()
    ensures { EncodedValuesAreDecoded }
{}

/// A percent-encoded value has only ASCII letters, digits and `-_.!~*'()%`, and so none of the
/// characters that separate the parts of a URL from each other.
pub fn encoded_values_have_no_delimiters()
    ensures { EncodedValuesHaveNoDelimiters }
{}
