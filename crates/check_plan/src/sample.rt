use mib_model::{Eng, Text};

/// What is checked.
#[derive(Clone, Copy)]
pub enum Sample<'a> {
    Number(Eng),
    Text(&'a Text),
}
