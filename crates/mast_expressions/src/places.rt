//! The places of documents, each with one method.
ghost use Rattle.std.specs.Prelude.{◌≡◌};
ghost use Rattle.mast_tree.specs.Results.{Gives};
ghost use Rattle.mast_tree.specs.Said.{said, line as line_said};
ghost use Rattle.mast_tree.specs.Seen.{seen};
ghost use Rattle.mast_expressions.specs.Iris as iris;
ghost use Rattle.mast_expressions.specs.Reads.{page, ReadsNamed, ReadsIri, ReadsClass, ReadsAttr, ReadsRole, ReadsLeft};
ghost use Rattle.mast_expressions.specs.inside.Parts as parts;

use mast_tbox::{Basic, RoleExpr};
use mast_terms::{Name, NameKind, Stop, Text, Vocabulary};
use mast_tree::{Doc, Item, Layer, PrefixTable, ShapeBreach, ShapeKind, wrong};
use std::alloc::Global;

/// A document and its prefixes. Each method reads an item of the document in one place, and adds the names that it uses
/// to the vocabulary that it is lent.
#[derive(Clone, Copy)]
pub struct Places<'d> {
    pub doc: &'d Doc<'d>,
    pub prefixes: &'d PrefixTable,
}

impl<'d> Places<'d> {
    /// The line of an item's first token, from 1.
    pub fn line(&self, item: &Item) -> u32
        ensures { result ≡ line_said (said (seen self.now.doc.now) item.now) }
    {
        self.doc.item_line(item)
    }

    /// The IRI that an item names, where IRIs alone stand: a node is a breach of the kind `other`, and else what
    /// `PrefixTable::expand` refuses.
    pub fn expanded(
        &self,
        alloc: Global,
        item: &Item,
        other: ShapeKind,
    ) -> Result<Text, Stop<ShapeBreach>>
        ensures { Gives result (iris.expanded other (page self.now) item.now) }
    {
        match self.node_line(item) {
            Some(line) => Err(wrong(line, other)),
            None => self.prefixes.expand(alloc, self.doc, item),
        }
    }

    // The line of a node, and nothing of another item.
    fn node_line(&self, item: &Item) -> Option<u32>
        ensures { result ≡ iris.node_line (said (seen self.now.doc.now) item.now) }
    {
        match self.doc.layer(item) {
            Layer::Name { .. } => None,
            Layer::Iri { .. } => None,
            Layer::Text { .. } => None,
            Layer::Tagged { .. } => None,
            Layer::Binding { .. } => None,
            Layer::Node { line, .. } => Some(line),
        }
    }

    /// A name of a kind, as an IRI: a class, an attribute, or a role that is no inverse. A node is a breach of the kind `other`.
    pub fn named(
        &self,
        alloc: Global,
        vocab: &mut Vocabulary,
        item: &Item,
        kind: NameKind,
        other: ShapeKind,
    ) -> Result<Name, Stop<ShapeBreach>>
        ensures { ReadsNamed other kind (page self.now) item.now vocab.old vocab.new result }
    {
        match self.node_line(item) {
            Some(line) => Err(wrong(line, other)),
            None => self.prefixes.name(alloc, self.doc, item, kind, vocab),
        }
    }

    /// A class: an IRI. A node is a breach of the kind `other`.
    pub fn class(
        &self,
        alloc: Global,
        vocab: &mut Vocabulary,
        item: &Item,
        other: ShapeKind,
    ) -> Result<Name, Stop<ShapeBreach>>
        ensures { ReadsClass other (page self.now) item.now vocab.old vocab.new result }
    {
        self.named(alloc, vocab, item, NameKind::Class, other)
    }

    /// A role: an IRI, or `ObjectInverseOf` of one IRI. Another node is a breach of the kind `other`, but inside an
    /// inverse a node is NotDlLite.
    pub fn role(
        &self,
        alloc: Global,
        vocab: &mut Vocabulary,
        item: &Item,
        other: ShapeKind,
    ) -> Result<RoleExpr, Stop<ShapeBreach>>
        ensures { ReadsRole other (page self.now) item.now vocab.old vocab.new result }
    {
        match self.doc.layer(item) {
            Layer::Node { word, line, items } => {
                if word == "ObjectInverseOf" {
                    Ok(RoleExpr::Inverse(self.inverse(alloc, vocab, line, items)?))
                } else {
                    Err(wrong(line, other))
                }
            }
            _ => Ok(RoleExpr::Direct(self.named(alloc, vocab, item, NameKind::Role, other)?)),
        }
    }

    // What stands in `ObjectInverseOf(..)`: one IRI.
    fn inverse(
        &self,
        alloc: Global,
        vocab: &mut Vocabulary,
        line: u32,
        items: &[Item],
    ) -> Result<Name, Stop<ShapeBreach>>
        ensures { parts.ReadsInverse (page self.now) line items.now vocab.old vocab.new result }
    {
        match items {
            [only] => self.named(alloc, vocab, only, NameKind::Role, ShapeKind::NotDlLite),
            _ => Err(wrong(line, ShapeKind::Shape)),
        }
    }

    /// An attribute: an IRI. A node is a breach of the kind `other`.
    pub fn attr(
        &self,
        alloc: Global,
        vocab: &mut Vocabulary,
        item: &Item,
        other: ShapeKind,
    ) -> Result<Name, Stop<ShapeBreach>>
        ensures { ReadsAttr other (page self.now) item.now vocab.old vocab.new result }
    {
        self.named(alloc, vocab, item, NameKind::Attr, other)
    }

    /// A left side: a class, `ObjectSomeValuesFrom(Role owl:Thing)` or `DataSomeValuesFrom(Attr rdfs:Literal)`.
    ///
    /// owl:Thing alone is TopOnLeft; another filler than owl:Thing is NotDlLite, another than rdfs:Literal is Datatype;
    /// every other node is NotDlLite.
    pub fn left(
        &self,
        alloc: Global,
        vocab: &mut Vocabulary,
        item: &Item,
    ) -> Result<Basic, Stop<ShapeBreach>>
        ensures { ReadsLeft (page self.now) item.now vocab.old vocab.new result }
    {
        match self.doc.layer(item) {
            Layer::Node { word, line, items } => {
                if word == "ObjectSomeValuesFrom" {
                    Ok(Basic::Some(self.some(alloc, vocab, line, items)?))
                } else if word == "DataSomeValuesFrom" {
                    Ok(Basic::Subjects(self.subjects(alloc, vocab, line, items)?))
                } else {
                    Err(wrong(line, ShapeKind::NotDlLite))
                }
            }
            _ => Ok(Basic::Class(self.left_class(alloc, vocab, item)?)),
        }
    }

    // An IRI on a left side, which is no node: a class, and not owl:Thing.
    fn left_class(
        &self,
        alloc: Global,
        vocab: &mut Vocabulary,
        item: &Item,
    ) -> Result<Name, Stop<ShapeBreach>>
        ensures { parts.ReadsLeftClass (page self.now) item.now vocab.old vocab.new result }
    {
        let iri = self.prefixes.expand(alloc, self.doc, item)?;
        if iri.as_str() == "http://www.w3.org/2002/07/owl#Thing" {
            return Err(wrong(self.line(item), ShapeKind::TopOnLeft));
        }
        self.prefixes
            .name(alloc, self.doc, item, NameKind::Class, vocab)
    }

    // What stands in `ObjectSomeValuesFrom(..)` on a left side: a role and owl:Thing.
    fn some(
        &self,
        alloc: Global,
        vocab: &mut Vocabulary,
        line: u32,
        items: &[Item],
    ) -> Result<RoleExpr, Stop<ShapeBreach>>
        ensures { parts.ReadsSome (page self.now) line items.now vocab.old vocab.new result }
    {
        match items {
            [role, filler] => self.some_of(alloc, vocab, role, filler),
            _ => Err(wrong(line, ShapeKind::Shape)),
        }
    }

    // A role and owl:Thing.
    fn some_of(
        &self,
        alloc: Global,
        vocab: &mut Vocabulary,
        role: &Item,
        filler: &Item,
    ) -> Result<RoleExpr, Stop<ShapeBreach>>
        ensures { parts.ReadsSomeOf (page self.now) role.now filler.now vocab.old vocab.new result }
    {
        let role = self.role(alloc, vocab, role, ShapeKind::NotDlLite)?;
        self.is_iri(
            alloc,
            filler,
            "http://www.w3.org/2002/07/owl#Thing",
            ShapeKind::NotDlLite,
        )?;
        Ok(role)
    }

    // What stands in `DataSomeValuesFrom(..)`: an attribute and rdfs:Literal.
    fn subjects(
        &self,
        alloc: Global,
        vocab: &mut Vocabulary,
        line: u32,
        items: &[Item],
    ) -> Result<Name, Stop<ShapeBreach>>
        ensures { parts.ReadsSubjects (page self.now) line items.now vocab.old vocab.new result }
    {
        match items {
            [attr, filler] => self.subjects_of(alloc, vocab, attr, filler),
            _ => Err(wrong(line, ShapeKind::Shape)),
        }
    }

    // An attribute and rdfs:Literal.
    fn subjects_of(
        &self,
        alloc: Global,
        vocab: &mut Vocabulary,
        attr: &Item,
        filler: &Item,
    ) -> Result<Name, Stop<ShapeBreach>>
        ensures { parts.ReadsSubjectsOf (page self.now) attr.now filler.now vocab.old vocab.new result }
    {
        let attr = self.attr(alloc, vocab, attr, ShapeKind::NotDlLite)?;
        self.is_iri(
            alloc,
            filler,
            "http://www.w3.org/2000/01/rdf-schema#Literal",
            ShapeKind::Datatype,
        )?;
        Ok(attr)
    }

    /// The wanted IRI; another is a breach of the kind `other`, and a node is NotDlLite.
    pub fn is_iri(
        &self,
        alloc: Global,
        item: &Item,
        wanted: &str,
        other: ShapeKind,
    ) -> Result<(), Stop<ShapeBreach>>
        ensures { ReadsIri wanted.now other (page self.now) item.now result }
    {
        let iri = self.expanded(alloc, item, ShapeKind::NotDlLite)?;
        if iri.as_str() == wanted {
            Ok(())
        } else {
            Err(wrong(self.line(item), other))
        }
    }
}
