// The attributes in force.
ghost use Rattle.std.specs.Prelude.{◌≡◌, None, OnOk, OnErr, position};
ghost use Rattle.zquery_rpn.specs.declared.query.Attr.{Attr};
ghost use Rattle.zquery.specs.InForce.{alike, same_set};
ghost use Rattle.zquery.specs.Notation.Grammar.{kept_set};
ghost use Rattle.zquery.specs.Notation.Reading.{put_in};

use std::alloc::AllocError;
use zber::Oid;
use zquery_rpn::Attr;

/// Returns the set that an attribute keeps: `None` if it is the query's own.
pub(crate) fn set_unless_own(own: &Oid, set: Oid) -> Option<Oid>
    ensures { result ≡ kept_set own.now set }
{
    if own.arcs() == set.arcs() {
        None
    } else {
        Some(set)
    }
}

fn same_sets(a: &Option<Oid>, b: &Option<Oid>) -> bool
    ensures { result ≡ same_set a.now b.now }
{
    match (a, b) {
        (None, None) => true,
        (Some(a), Some(b)) => a.arcs() == b.arcs(),
        _ => false,
    }
}

/// Whether two attributes have the same set and type.
#[tactic(auto, unfolding(crate::specs::InForce::alike))]
pub(crate) fn are_alike(a: &Attr, b: &Attr) -> bool
    ensures { result ≡ alike a.now b.now }
{
    same_sets(&a.attr_set, &b.attr_set) && a.kind == b.kind
}

/// Returns the place of the first attribute with the same set and type.
fn place_of(attrs: &[Attr], attr: &Attr) -> Option<usize>
    ensures { result ≡ position (λ b. alike b attr.now) attrs.now }
{
    attrs.iter().position(|other| are_alike(other, attr))
}

/// Puts an attribute in force. Its value replaces that of the first attribute with the same set and type; if there is
/// none, the attribute is added last. Returns `AllocError` if no memory is found.
pub(crate) fn put(attrs: &mut Vec<Attr>, attr: Attr) -> Result<(), AllocError>
    ensures { OnOk result (attrs.new.items ≡ put_in attrs.old.items attr) }
{
    match place_of(attrs, &attr) {
        Some(at) => attrs[at].value = attr.value,
        None => attrs.push(attr)?,
    }
    Ok(())
}
