/// The next ids of a map: that of a layer, and that of an object.
#[derive(Clone, Copy, PartialEq, Eq, Debug)]
pub struct NextIds {
    pub layer: u32,
    pub object: u32,
}
