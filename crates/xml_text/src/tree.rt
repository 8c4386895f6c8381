// Elements, and where they stand in a text.
ghost use Rattle.std.specs.Prelude.{◌≡◌, string_bytes, map};
ghost use Rattle.xml_text.specs.Xml.{node_view, view, element, attribute_view, children_of};
ghost use Rattle.xml_text.specs.Places.{node_place, place_of, element_place, attribute_place, places_of};

/// A stretch of the text, in bytes: from its first one to the one behind its last.
#[derive(Clone, Copy)]
pub struct Span {
    pub from: usize,
    pub end: usize,
}

/// What a tag says by `name="value"`.
#[derive(Drop)]
pub struct Attribute {
    pub name: String,
    pub value: String,
    /// All of it, with its name and its quotes.
    pub span: Span,
    /// What stands between its quotes.
    pub value_span: Span,
}

/// Characters between tags: a run of them up to the next `<`, or those of a CDATA section. Beside each other they are several.
#[derive(Drop)]
pub struct Text {
    pub text: String,
    pub span: Span,
}

/// An element. Comments and processing instructions are no children: they stand in the gaps between the spans of these.
#[cycle(nodes)]
#[derive(Drop)]
pub struct Element {
    pub name: String,
    pub attributes: Vec<Attribute>,
    pub children: Vec<Node>,
    /// From its `<` to behind its last `>`.
    pub span: Span,
    /// What stands between its tags; of `<x/>` nothing, at the end of its span.
    pub content: Span,
}

/// What stands between the tags of an element.
#[cycle(nodes)]
#[derive(Drop)]
pub enum Node {
    Element(Element),
    Text(Text),
}

/// An element of these parts.
pub(crate) fn made(
    name: String,
    attributes: Vec<Attribute>,
    children: Vec<Node>,
    span: Span,
    content: Span,
) -> Element
    ensures view { view result ≡ element (string_bytes name) (map attribute_view attributes.items) (children_of (map node_view children.items)) }
    ensures place { place_of result ≡ element_place span content (map attribute_place attributes.items) (places_of (map node_place children.items)) }
{
    Element {
        name,
        attributes,
        children,
        span,
        content,
    }
}
