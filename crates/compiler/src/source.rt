// What code is made from: the program's nodes, how many cells it has, and the place of each procedure's code.
use language::nodes::{MOST_PROCEDURES, Node};

#[derive(Clone, Copy)]
pub(crate) struct Source<'a> {
    pub(crate) nodes: &'a [Node],
    pub(crate) cells: u16,
    pub(crate) places: &'a [u16; MOST_PROCEDURES],
}
