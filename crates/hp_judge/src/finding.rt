//! What is wrong with a picture.

/// What a line of a picture has to keep.
#[derive(Clone, Copy, Debug, PartialEq, Eq)]
pub enum Clause {
    /// A region is of a file that is there, isn't empty, ends at 2^31 at most, and lies behind the region before it: it is of a later
    /// file, or an index lies between them (Linux: the list of a `struct resv_map`).
    Region,
    /// A page is of a file that is there, at an index below 2^31, and lies behind the page before it.
    Page,
    /// A translation is of a file that is there.
    File,
    /// A translation names its file's page at that index.
    Agree,
    /// A translation of a file that isn't locked lies below the file's size.
    Size,
}

/// Something that is wrong with a picture, and where.
#[derive(Clone, Copy, Debug, PartialEq, Eq)]
pub enum Finding {
    /// The line with this number doesn't keep the clause: of the regions, the pages or the translations, counted from 0.
    Line { clause: Clause, number: usize },
    /// The frame is at two places or more: free, retired, in a hand or in a page.
    Place { frame: u32 },
    /// The reserve count isn't this: the reserved indices without a page, and what is owed. It is looked for where all regions and
    /// pages are right.
    Count { wanted: i128 },
    /// The reserve count is below zero, or above the free frames.
    Free,
    /// The used count isn't this: the reserved indices, and what is owed. It is looked for where all regions and pages are right.
    Used { wanted: i128 },
    /// The used count is below zero, or above the quota.
    Quota,
}
