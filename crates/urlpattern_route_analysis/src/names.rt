//! The names of a request's attributes in a case.

ghost use Rattle.std.specs.Prelude.{◌≡◌, IfOk, string_bytes};
ghost use Rattle.urlpattern_route_analysis.specs.Cases.{literal_view, literal_views};
ghost use Rattle.urlpattern_route_analysis.specs.Naming.{GivesName, GivesNames, IsOther, allows, allows_one, lacks, some_lack};

use crate::case::Literal;
use crate::formula::Atom;
use std::alloc::{AllocError, Global};

/// The names that an attribute of a request may have.
#[derive(Debug, Clone, Copy)]
pub struct Attribute<'a> {
    /// Names that the attribute may have.
    pub names: &'a [&'a str],
    /// Whether the attribute may have any other name too.
    pub is_open: bool,
}

/// Returns a name for each attribute, as the literals say. `None`: there are none.
pub(crate) fn names_of(
    alloc: Global,
    literals: &[Literal<'_>],
    attributes: &[Attribute<'_>],
) -> Result<Option<Vec<String>>, AllocError>
    ensures { IfOk result (GivesNames (literal_views literals.now) attributes.now) }
{
    let mut names = Vec::new(alloc);
    if some_lack(literals, attributes.len()) {
        return Ok(None);
    }
    for index in 0..attributes.len() {
        match name_of(alloc, literals, index, &attributes[index])? {
            Some(name) => names.push(name)?,
            None => return Ok(None),
        }
    }
    Ok(Some(names))
}

/// Whether some literal says that an attribute has a name, and is of none of so many attributes.
fn some_lack(literals: &[Literal<'_>], count: usize) -> bool
    ensures { result ≡ some_lack (literal_views literals.now) count }
{
    literals.iter().any(|literal| lacks(literal, count))
}

/// Whether the literal says that an attribute has a name, and is of none of so many attributes.
fn lacks(literal: &Literal<'_>, count: usize) -> bool
    ensures { result ≡ lacks count literal.now.holds (literal_view literal.now).atom }
{
    match literal.atom {
        Atom::Name(attribute, _) => literal.holds && count <= *attribute,
        Atom::Url(_) => false,
    }
}

/// Returns a name for the attribute at this index, as the literals say. `None`: there is none.
fn name_of(
    alloc: Global,
    literals: &[Literal<'_>],
    index: usize,
    attribute: &Attribute<'_>,
) -> Result<Option<String>, AllocError>
    ensures { IfOk result (GivesName (literal_views literals.now) index attribute.now) }
{
    for name in attribute.names {
        if allows(literals, index, name) {
            return Ok(Some(String::from_str(alloc, name)?));
        }
    }
    if !attribute.is_open {
        return Ok(None);
    }
    let other = other_name(alloc, literals, index)?;
    if !allows(literals, index, other.as_str()) {
        return Ok(None);
    }
    Ok(Some(other))
}

/// Whether the attribute at this index may have the name, as the literals say.
fn allows(literals: &[Literal<'_>], index: usize, name: &str) -> bool
    ensures { result ≡ allows (literal_views literals.now) index name.now }
{
    literals
        .iter()
        .all(|literal| allows_one(literal, index, name))
}

/// Whether the attribute at this index may have the name, as the literal says.
fn allows_one(literal: &Literal<'_>, index: usize, name: &str) -> bool
    ensures { result
        ≡ allows_one index name.now literal.now.holds (literal_view literal.now).atom }
{
    match literal.atom {
        Atom::Name(own, told) if *own == index => (told.as_str() == name) == literal.holds,
        _ => true,
    }
}

/// Returns a name for the attribute at this index, as the literals say: the one that it has, or
/// else one that is longer than each that it does not have.
fn other_name(alloc: Global, literals: &[Literal<'_>], index: usize) -> Result<String, AllocError>
    ensures { IfOk result (λ name. IsOther (literal_views literals.now) index (string_bytes name)) }
{
    let mut other = String::new(alloc);
    for literal in literals {
        match literal.atom {
            Atom::Name(own, name) if *own == index => {
                if literal.holds {
                    return name.clone();
                }
                other.push_str(name)?;
            }
            Atom::Name(_, _) => {}
            Atom::Url(_) => {}
        }
    }
    other.push_str("X")?;
    Ok(other)
}
