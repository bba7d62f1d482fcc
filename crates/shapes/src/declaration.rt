// A declaration of a table, as it is handed in: nothing is known of it yet.

#[derive(Clone, Copy, PartialEq, Eq, Debug)]
pub struct Declaration {
    pub rank: u16,
    pub extents: [u16; 4],
}
