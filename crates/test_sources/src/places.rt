//! Where the parts of a source stand, and whose comments are whose.

use descriptor_records::{Location, SourceCodeInfo};
use test_json::Text;

/// Writes numbers with commas between them.
pub fn write_numbers(out: &mut Text, numbers: &[i32]) {
    let mut gap = "";
    for number in numbers {
        out.push_shown(gap, *number);
        gap = ",";
    }
}

/// Writes the comments of a location: `-` is a detached one, `<` stands in front, `>` behind.
fn write_comments(out: &mut Text, location: &Location) {
    for comment in &location.leading_detached_comments {
        out.push_quoted(" -", comment.as_str());
    }
    if let Some(comment) = &location.leading_comments {
        out.push_quoted(" <", comment.as_str());
    }
    if let Some(comment) = &location.trailing_comments {
        out.push_quoted(" >", comment.as_str());
    }
}

/// Writes a line for each location: its path, its span and its comments.
pub fn write_places(out: &mut Text, info: &SourceCodeInfo) {
    for location in &info.location {
        write_numbers(out, location.path.as_slice());
        out.push_str(": ");
        write_numbers(out, location.span.as_slice());
        write_comments(out, location);
        out.push_str("\n");
    }
}

fn has_comments(location: &Location) -> bool {
    location.leading_comments.is_some()
        || location.trailing_comments.is_some()
        || !location.leading_detached_comments.is_empty()
}

/// Writes a line for each location that has comments: its path and these.
pub fn write_commented(out: &mut Text, info: &SourceCodeInfo) {
    for location in &info.location {
        if has_comments(location) {
            write_numbers(out, location.path.as_slice());
            write_comments(out, location);
            out.push_str("\n");
        }
    }
}
