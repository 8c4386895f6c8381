/// What a list of properties belongs to.
#[derive(Clone, Copy, PartialEq, Eq, Debug)]
pub enum Owner {
    Map,
    /// The layer with this id.
    Layer(u32),
    /// The object with this id.
    Object(u32),
}

/// What own members belong to.
#[derive(Clone, Copy, PartialEq, Eq, Debug)]
pub enum MemberOwner {
    Map,
    /// The layer with this id.
    Layer(u32),
    /// The object with this id.
    Object(u32),
    /// The tileset with this first id.
    Tileset(u32),
}
