use crate::name::Name;

/// The names of an output: that of its new file, and that of the place it takes.
#[derive(Drop)]
pub struct Output {
    /// Its new file, which is written first.
    pub new: Name,
    /// The name that the new file gets in the end.
    pub place: Name,
}
