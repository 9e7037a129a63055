//! Pieces of lines: names, lists of names, paths.

ghost use Rattle.std.specs.Iterator.{IsFinite};

use crate::listed::{Found, Listed};
use test_json::Text;

/// A name, or a dash where there is none.
pub fn or_dash<'t>(name: Option<&'t str>) -> &'t str {
    name.unwrap_or("-")
}

/// Writes what a line begins with: the sort of a declaration, its full name and its name.
pub fn write_named(out: &mut Text, sort: &str, full_name: &str, name: &str) {
    out.push_pair(sort, full_name);
    out.push_pair(" name=", name);
}

/// Writes where a declaration stands: its path, its file and its package.
pub fn write_home(out: &mut Text, path: &[i32], file: &str, package: &str) {
    write_path(out, path);
    out.push_pair(" file=", file);
    out.push_pair(" package=", package);
}

/// Writes the name that a record has, or a dash.
pub fn write_record(out: &mut Text, name: &Option<String>) {
    match name {
        Some(name) => out.push_pair(" record=", name.as_str()),
        None => out.push_str(" record=-"),
    }
}

/// Writes a word and the name of what was found, or a dash.
pub fn write_listed<'p, T: Listed<'p>>(out: &mut Text, word: &str, found: Option<T>) {
    match found {
        Some(found) => out.push_pair(word, found.listed_name()),
        None => out.push_pair(word, "-"),
    }
}

/// Writes a word and the full name of what was found, or a dash.
pub fn write_found<'p, T: Found<'p>>(out: &mut Text, word: &str, found: Option<T>) {
    match found {
        Some(found) => out.push_pair(word, found.found_name()),
        None => out.push_pair(word, "-"),
    }
}

/// Writes a word and a truth value.
pub fn write_truth(out: &mut Text, word: &str, truth: bool) {
    out.push_pair(word, if truth { "true" } else { "false" });
}

/// Writes a word and the names with commas between them.
pub fn write_names<'p, T: Listed<'p>, I: Iterator<Item = T> + Drop>(
    out: &mut Text,
    word: &str,
    items: I,
)
    requires can { I.can_next items }
    requires ends { IsFinite (I.remaining items) }
{
    out.push_str(word);
    let mut is_first = true;
    for item in items {
        if !is_first {
            out.push_str(",");
        }
        out.push_str(item.listed_name());
        is_first = false;
    }
}

/// Writes ` path=` and the numbers with dots between them.
pub fn write_path(out: &mut Text, path: &[i32]) {
    let mut gap = " path=";
    for number in path {
        out.push_shown(gap, *number);
        gap = ".";
    }
}
