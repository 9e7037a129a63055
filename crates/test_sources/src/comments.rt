//! Comments, as they are kept for the declarations around them.

use protox_lex::Comments;
use serde_json::Value;
use std::alloc::Global;
use test_json::members::{items, text};
use test_json::{Text, Told};

/// Writes the block behind a declaration.
fn write_trailing(out: &mut Text, trailing: Option<String>) {
    match trailing {
        Some(block) => out.push_quoted(" >", block.as_str()),
        None => out.push_str(" >none"),
    }
}

/// Writes the blocks in front of a declaration: detached ones, and that of the declaration.
fn write_leading(out: &mut Text, detached: &[String], leading: Option<String>) {
    for block in detached {
        out.push_quoted(" -", block.as_str());
    }
    match leading {
        Some(block) => out.push_quoted(" <", block.as_str()),
        None => out.push_str(" <none"),
    }
}

/// Puts what a call gives, or writes what it takes.
fn answer(comments: &mut Comments, out: &mut Text, call: &Value) {
    let given = text(call, "text");
    match text(call, "call") {
        "line" => out.check(comments.line_comment(given)),
        "block" => out.check(comments.block_comment(given)),
        "detach" => comments.detach(),
        "trailing" => write_trailing(out, comments.take_trailing()),
        "leading" => {
            let (detached, leading) = comments.take_leading();
            write_leading(out, detached.as_slice(), leading);
        }
        _ => out.push_str("no call"),
    }
}

/// What calls take of the comments that others put.
pub fn tell_comments(alloc: Global, case: &Value, told: &mut Told<'_>) {
    let mut comments = Comments::new(alloc);
    let mut out = Text::new(alloc);
    for call in items(case, "calls") {
        answer(&mut comments, &mut out, call);
    }
    told.tell_text("ok", out);
}
