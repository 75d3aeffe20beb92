//! What an audit can find.
use thiserror::Error;

/// What is wrong with a picture.
#[derive(Clone, Copy, Debug, PartialEq, Eq, Error)]
pub enum Finding {
    /// The data is no pool's at all.
    #[error("a range, an index or a file's number is out of bounds, or an index has two pages")]
    Shape,
    /// A translation isn't borne out by its file.
    #[error("a translation names a frame that isn't the page of its file at that index")]
    Agree,
    /// A frame is more than once among the free ones, the retired ones, those in hands and all pages.
    #[error("a frame is at two places")]
    Place,
    /// A translation lies past the end of a file.
    #[error("a translation lies at or above the size of a file that isn't locked")]
    Size,
    /// The reserve count is wrong.
    #[error("the reserve count isn't that of the reserved indices, or is above the free frames")]
    Count,
    /// The used count is wrong.
    #[error("the used count isn't that of the reserved indices, or is above the quota")]
    Used,
}
