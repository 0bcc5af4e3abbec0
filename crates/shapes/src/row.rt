// The row of a first byte.
#[derive(Clone, Copy)]
pub struct Row {
    pub length: usize,
    pub taken: usize,
    pub pushed: usize,
}
