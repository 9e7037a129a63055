ghost use Rattle.std.specs.Prelude.{◌≡◌};
ghost use Rattle.descriptor_records.specs.Content.{source_info_view, location_view};

use std::alloc::AllocError;

/// Where the declarations of a file stand in its source.
#[derive(PartialEq, Drop)]
pub struct SourceCodeInfo {
    pub location: Vec<Location>,
}

/// Where one part of a file stands, and its comments.
#[derive(PartialEq, Drop)]
pub struct Location {
    /// Which part it is: field numbers of the records from the file down, each of a list followed
    /// by an index.
    pub path: Vec<i32>,
    /// Line, column, end column; or line, column, end line, end column. All count from 0, columns
    /// in bytes.
    pub span: Vec<i32>,
    pub leading_comments: Option<String>,
    pub trailing_comments: Option<String>,
    pub leading_detached_comments: Vec<String>,
}

impl Clone for SourceCodeInfo {
    ghost is_clone = { λ a b. source_info_view b ≡ source_info_view a };

    fn clone(&self) -> Result<SourceCodeInfo, AllocError> {
        Ok(SourceCodeInfo {
            location: self.location.clone()?,
        })
    }
}

impl Clone for Location {
    ghost is_clone = { λ a b. location_view b ≡ location_view a };

    fn clone(&self) -> Result<Location, AllocError> {
        Ok(Location {
            path: self.path.clone()?,
            span: self.span.clone()?,
            leading_comments: self.leading_comments.clone()?,
            trailing_comments: self.trailing_comments.clone()?,
            leading_detached_comments: self.leading_detached_comments.clone()?,
        })
    }
}
