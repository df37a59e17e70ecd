//! SEQUENCE OF strings: texts in order, each in an element with the same tag.
ghost use Rattle.zasn_tables.specs.Within.{all_meanings, all_spellings, list_meaning};
ghost use Rattle.zasn_tables.specs.Meanings.{octets_spelling};
ghost use Rattle.zasn.specs.Results.{MeaningResult, BuildResult};
ghost use Rattle.zasn.specs.Places.{strings, text_under};

use crate::build::PartsBuf;
use crate::contents::Contents;
use crate::error::{BuildError, PartError};
use bytes::Bytes;
use std::alloc::Global;
use zber::{Body, Node, Seq, Tag};

fn text_in(alloc: Global, node: &Node, tag: Tag) -> Result<Bytes, PartError>
    ensures { MeaningResult (text_under tag node.now) result }
{
    if node.tag != tag {
        return Err(PartError::Misfit);
    }
    Bytes::of_node(alloc, node)
}

fn all_in(alloc: Global, nodes: &[Node], tag: Tag) -> Result<Seq<Bytes>, PartError>
    ensures { MeaningResult (all_meanings (text_under tag) nodes.now) result }
{
    let mut texts = Vec::new(alloc);
    for node in nodes {
        let text = text_in(alloc, node, tag)?;
        texts.push(text)?;
    }
    Ok(Seq::from_vec(texts))
}

fn all_of_them(alloc: Global, texts: &[Bytes], tag: Tag) -> Result<PartsBuf, BuildError>
    ensures { BuildResult (all_spellings (octets_spelling tag) texts.now) result }
{
    let mut out = PartsBuf::new(alloc);
    for text in texts {
        let node = text.to_node(alloc, tag)?;
        out.push(node)?;
    }
    Ok(out)
}

/// Returns the texts of the elements within one, each of which has the tag: SEQUENCE OF one kind of string (X.690,
/// 8.10).
///
/// Returns `Misfit` if the outer one is primitive, or if an element within has another tag or is no string. Returns
/// `Memory` if no memory is found.
pub fn read_texts(alloc: Global, node: &Node, tag: Tag) -> Result<Seq<Bytes>, PartError>
    ensures { MeaningResult (list_meaning (text_under tag) node.now) result }
{
    match &node.body {
        Body::Prim(_) => Err(PartError::Misfit),
        Body::Cons(nodes) => all_in(alloc, nodes.as_slice(), tag),
    }
}

/// Returns the element with the outer tag around those of texts, each under the inner tag. Returns `Memory` if no
/// memory is found, and never `NotSpellable`.
pub fn write_texts(
    alloc: Global,
    texts: &Seq<Bytes>,
    outer: Tag,
    inner: Tag,
) -> Result<Node, BuildError>
    ensures { BuildResult ((strings outer inner).spelling texts.now) result }
{
    let out = all_of_them(alloc, texts.as_slice(), inner)?;
    Ok(out.into_node(outer))
}
