/// The numbers from `first` to `last`, or from `first` on if there is no last one.
#[derive(Clone, Copy, Debug, PartialEq, Eq)]
pub struct Range {
    pub first: usize,
    pub last: Option<usize>,
}
