use mib_model::Text;

/// What is checked: a count of 10^-12, or a status text.
#[derive(Clone, Copy)]
pub enum Checked<'a> {
    Count(i128),
    Words(&'a Text),
}
