use display_pages::Page;
use std::collections::LinkedList;

/// What an end of a board knows: whether it publishes, the pages that it has seen published, the lists of pages that it was told
/// of, and the pages that it got. No value of it is made.
pub struct BoardView {
    pub publishes: bool,
    pub seen: LinkedList<Page>,
    pub told: LinkedList<LinkedList<Page>>,
    pub got: LinkedList<Page>,
}
