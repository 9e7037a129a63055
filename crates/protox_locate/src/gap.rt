//! The comments that stand between two tokens.

ghost use Rattle.std.specs.Prelude.{◌≡◌, ◌+◌, ◌<◌, ◌≤◌, ◌&&◌, length, drop, IfOk, OnOk, string_bytes};
ghost use Rattle.std.specs.List.{position_or_len};
ghost use Rattle.std.specs.Str.Lossy.{utf8_lossy};
ghost use Rattle.protox_locate.specs.Gap as gap;

use memchr::{memchr, memmem};
use protox_lex::Comments;
use std::alloc::{AllocError, Global};

/// What follows a gap.
#[derive(Clone, Copy)]
pub enum Behind {
    Statement,
    /// The brace that closes what the gap stands in.
    Brace,
    /// The end of the source.
    End,
}

/// The comments of a gap, by what they belong to.
#[derive(Drop)]
pub struct GapComments {
    /// That of the statement in front.
    pub trailing: Option<String>,
    /// Those that stand apart, in front of the statement behind.
    pub detached: Vec<String>,
    /// That of the statement behind.
    pub leading: Option<String>,
}

/// How many line ends there are, as far as it matters.
#[derive(Clone, Copy)]
enum LineEnds {
    None,
    One,
    More,
}

/// What begins at a place of a gap.
#[derive(Clone, Copy)]
enum Mark {
    /// `//`
    Line,
    /// `/*`
    Block,
    /// A line feed.
    Feed,
    Other,
}

/// How far a gap is read.
#[derive(Drop)]
struct Reader {
    comments: Comments,
    /// The line ends since the last comment or the start; the one that a line comment ends with
    /// counts.
    line_ends: LineEnds,
    /// The line ends in front of the first block.
    first_line: LineEnds,
    /// A blank line follows the first block.
    is_first_parted: bool,
}

impl Reader {
    fn new(alloc: Global) -> Reader
        ensures { gap.read_view result ≡ gap.unread }
    {
        Reader {
            comments: Comments::new(alloc),
            line_ends: LineEnds::None,
            first_line: LineEnds::None,
            is_first_parted: false,
        }
    }

    /// A line end. The second one since a comment ends a blank line.
    fn feed(&mut self)
        ensures { gap.read_view self.new ≡ gap.read (gap.read_view self.old) gap.line_end }
    {
        match self.line_ends {
            LineEnds::None => self.line_ends = LineEnds::One,
            LineEnds::One => {
                self.line_ends = LineEnds::More;
                self.comments.detach();
                self.is_first_parted = self.is_first_parted || self.comments.count() == 1;
            }
            LineEnds::More => {}
        }
    }

    /// Bytes that are no text are kept with a replacement character for what is none.
    fn line_comment(&mut self, alloc: Global, text: &[u8]) -> Result<(), AllocError>
        ensures { OnOk result (gap.read_view self.new
            ≡ gap.read (gap.read_view self.old) (gap.line_comment text.now)) }
    {
        if let Ok(text) = str::from_utf8(text) {
            return self.line(text);
        }
        let text = String::from_utf8_lossy(alloc, text)?;
        self.line(text.as_str())
    }

    /// A line comment of this text.
    fn line(&mut self, text: &str) -> Result<(), AllocError>
        ensures { OnOk result (gap.read_view self.new
            ≡ gap.with_line_comment (gap.read_view self.old) text.now) }
    {
        self.meet();
        self.comments.line_comment(text)?;
        self.line_ends = LineEnds::One;
        Ok(())
    }

    fn block_comment(&mut self, alloc: Global, text: &[u8]) -> Result<(), AllocError>
        ensures { OnOk result (gap.read_view self.new
            ≡ gap.read (gap.read_view self.old) (gap.block_comment text.now)) }
    {
        self.meet();
        let text = without_margins(alloc, text)?;
        self.comments.block_comment(text.as_str())?;
        self.line_ends = LineEnds::None;
        Ok(())
    }

    /// Notes the line of the first comment.
    fn meet(&mut self)
        ensures { gap.read_view self.new
            ≡ record (gap.read_view self.old) { before_first = gap.met (gap.read_view self.old) } }
    {
        if self.comments.count() == 0 {
            self.first_line = self.line_ends;
        }
    }

    /// The first block belongs to the statement in front: it begins on that one's last line, or on
    /// the next line and is parted from what follows.
    fn is_first_trailing(&self, behind: Behind) -> bool
        ensures { result ≡ gap.trails behind (gap.read_view self.now) }
    {
        let is_alone = self.comments.count() == 1 && matches!(behind, Behind::Brace);
        match self.first_line {
            LineEnds::None => true,
            LineEnds::One => self.is_first_parted || is_alone,
            LineEnds::More => false,
        }
    }

    /// The blocks by what they belong to.
    fn into_comments(mut self, may_trail: bool, behind: Behind) -> GapComments
        ensures { let read = gap.read_view self in
            gap.notes_view result ≡ gap.notes_of (may_trail && gap.trails behind read) read.notes }
    {
        let is_taken = may_trail && self.is_first_trailing(behind);
        let trailing = if is_taken {
            self.comments.take_trailing()
        } else {
            None
        };
        let (detached, leading) = self.comments.take_leading();
        GapComments {
            trailing,
            detached,
            leading,
        }
    }
}

/// The first place from `at` on that has the byte, or the end.
fn find(bytes: &[u8], at: usize, wanted: u8) -> usize
    requires { at ≤ length bytes.now }
    ensures within { (at ≤ result) × (result ≤ length bytes.now) }
    ensures first { wanted ≡ 10 → result ≡ at + position_or_len gap.is_feed (drop at bytes.now) }
{
    match memchr(wanted, &bytes[at..]) {
        Some(place) => at + place,
        None => bytes.len(),
    }
}

/// The place of the first `*/` from `at` on, or the end.
fn find_close(bytes: &[u8], at: usize) -> usize
    requires { at ≤ length bytes.now }
    ensures within { (at ≤ result) × (result ≤ length bytes.now) }
    ensures first { result ≡ at + gap.before_close (drop at bytes.now) }
{
    match memmem::find(&bytes[at..], b"*/") {
        Some(place) => at + place,
        None => bytes.len(),
    }
}

fn is_blank(b: &u8) -> bool
    ensures { result ≡ gap.is_blank b.now }
{
    matches!(*b, b' ' | b'\t' | 11 | 12 | b'\r')
}

/// A line without the white space and the one `*` in front.
fn without_margin(line: &[u8]) -> &[u8]
    ensures { result.now ≡ gap.without_margin line.now }
{
    let mut start = 0;
    'blanks: while start < line.len() && is_blank(&line[start]) {
        start += 1;
    }
    match &line[start..] {
        [b'*', rest @ ..] => rest,
        rest => rest,
    }
}

/// The text between the marks of a block comment: each line but the first loses its margin.
fn without_margins(alloc: Global, text: &[u8]) -> Result<String, AllocError>
    ensures { IfOk result (λ made. string_bytes made ≡ utf8_lossy (gap.without_margins text.now)) }
{
    let mut bytes = Vec::with_capacity(alloc, text.len())?;
    let mut at = find(text, 0, b'\n');
    bytes.extend_from_slice(&text[..at])?;
    'lines: while at < text.len() {
        let end = find(text, at + 1, b'\n');
        bytes.push(b'\n')?;
        bytes.extend_from_slice(without_margin(&text[at + 1..end]))?;
        at = end;
    }
    String::from_utf8_lossy(alloc, bytes.as_slice())
}

fn first_mark(bytes: &[u8]) -> Mark
    ensures { result ≡ gap.mark_of bytes.now }
{
    match bytes {
        [b'/', b'/', ..] => Mark::Line,
        [b'/', b'*', ..] => Mark::Block,
        [b'\n', ..] => Mark::Feed,
        _ => Mark::Other,
    }
}

/// Reads the comment, white space or line end at a place, and gives the place behind it.
fn read_piece(
    alloc: Global,
    reader: &mut Reader,
    bytes: &[u8],
    at: usize,
) -> Result<usize, AllocError>
    requires { at < length bytes.now }
    ensures within { IfOk result (λ end. (at < end) × (end ≤ length bytes.now)) }
    ensures reads { IfOk result (λ end. gap.read_all (gap.read_view reader.new)
        (gap.pieces (drop end bytes.now))
        ≡ gap.read_all (gap.read_view reader.old) (gap.pieces (drop at bytes.now))) }
{
    match first_mark(&bytes[at..]) {
        Mark::Line => {
            let end = bytes.len().min(find(bytes, at + 2, b'\n') + 1);
            reader.line_comment(alloc, &bytes[at + 2..end])?;
            Ok(end)
        }
        Mark::Block => {
            let end = find_close(bytes, at + 2);
            reader.block_comment(alloc, &bytes[at + 2..end])?;
            Ok(bytes.len().min(end + 2))
        }
        Mark::Feed => {
            reader.feed();
            Ok(at + 1)
        }
        Mark::Other => Ok(at + 1),
    }
}

/// The comments of the gap that these bytes are. `may_trail` where it follows the semicolon or the
/// opening brace of a statement.
pub fn gap_comments(
    alloc: Global,
    bytes: &[u8],
    may_trail: bool,
    behind: Behind,
) -> Result<GapComments, AllocError>
    ensures { IfOk result (λ made. gap.notes_view made
        ≡ gap.comments_in bytes.now may_trail behind) }
{
    let mut reader = Reader::new(alloc);
    let mut at = 0;
    'pieces: while at < bytes.len() {
        at = read_piece(alloc, &mut reader, bytes, at)?;
    }
    Ok(reader.into_comments(may_trail, behind))
}
