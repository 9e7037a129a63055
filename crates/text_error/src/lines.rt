//! Lines and columns of a text.
ghost use Rattle.std.specs.Prelude.{◌≡◌};
ghost use Rattle.text_error.specs.Places.{line_and_column_at};

use memchr::memchr_iter;

/// The line feeds of a text before an offset, and the bytes behind the last of them; nothing where
/// the text has not so many bytes.
pub fn line_and_column(text: &str, offset: usize) -> Option<(usize, usize)>
    ensures { result ≡ line_and_column_at text.now offset }
{
    if text.len() < offset {
        return None;
    }
    let mut line = 0;
    let mut start = 0;
    let mut feeds = memchr_iter(b'\n', text.as_bytes());
    'feeds: while let Some(end) = feeds.next() {
        if end < offset {
            line += 1;
            start = end + 1;
        }
    }
    Some((line, offset - start))
}
