// Copies of attributes.
ghost use Rattle.std.specs.Prelude.{◌≡◌, IfOk};

use crate::query::{Attr, AttrValue};
use std::alloc::{AllocError, Global};

impl Attr {
    /// Returns an equal attribute, or `AllocError` if no memory is found.
    pub(crate) fn copy(&self, alloc: Global) -> Result<Attr, AllocError>
        ensures { IfOk result (λ a. a ≡ self.now) }
    {
        let attr_set = match &self.attr_set {
            None => None,
            Some(set) => Some(set.copy(alloc)?),
        };
        let value = match &self.value {
            AttrValue::Number(number) => AttrValue::Number(*number),
            AttrValue::Complex(node) => AttrValue::Complex(node.copy(alloc)?),
        };
        Ok(Attr {
            attr_set,
            kind: self.kind,
            value,
        })
    }
}

/// Returns equal attributes, in the same order, or `AllocError` if no memory is found.
pub fn copies(alloc: Global, attrs: &[Attr]) -> Result<Vec<Attr>, AllocError>
    ensures { IfOk result (λ v. v.items ≡ attrs.now) }
{
    let mut copies = Vec::new(alloc);
    for attr in attrs {
        copies.push(attr.copy(alloc)?)?;
    }
    Ok(copies)
}
