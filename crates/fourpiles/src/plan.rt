// Which tables are multiplied, and how large they are.

// Table `left` has `rows` rows and `inner` columns, `right` has `inner` rows and `columns` columns, `result` the outer ones.
#[derive(Clone, Copy)]
pub struct Plan {
    pub left: usize,
    pub right: usize,
    pub result: usize,
    pub rows: u16,
    pub inner: u16,
    pub columns: u16,
}
