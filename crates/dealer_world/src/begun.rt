/// A start of a node; both are counted from 0.
#[derive(Clone, Copy, Debug, Drop)]
pub struct Begun {
    pub node: u8,
    pub start: usize,
}
