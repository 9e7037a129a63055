ghost use Rattle.std.specs.Prelude.{◌≡◌, ◌++◌, ◌∷◌, [], IfOk, OnOk, length, map};
ghost use Rattle.descriptor_records.specs.Content.{location_view, text_view, texts_view};
ghost use Rattle.protox_lex.specs.Resolver.{feeds};
ghost use Rattle.protox_locate.specs.declared.gap.Behind.TheVariants.{End};
ghost use Rattle.protox_locate.specs.Declarations.{part_if};
ghost use Rattle.protox_locate.specs.Files.{AreByPath};
ghost use Rattle.protox_locate.specs.Collected as spec;
ghost use Rattle.protox_locate.specs.Located as located;

use crate::gap::{Behind, GapComments, gap_comments};
use descriptor_records::{Location, join_path};
use protox_lex::{LineResolver, Span};
use std::alloc::{AllocError, Global};

/// What stands in front of a gap.
#[derive(Clone, Copy)]
enum Front {
    /// The start of the source, or a closing brace: no comment trails these.
    Nothing,
    /// An empty statement, whose comments are dropped.
    Empty,
    /// The semicolon or the opening brace of the statement whose location has this place.
    Statement(usize),
}

/// The locations of a source, collected in source order. Calls are refused for want of memory
/// alone, and then it is not said which locations there are.
#[derive(Drop)]
pub struct Locator<'a> {
    alloc: Global,
    source: &'a [u8],
    lines: &'a LineResolver,
    locations: Vec<Location>,
    /// Where the gap begins that is read next.
    gap_start: usize,
    front: Front,
}

/// The greatest offset: a source that an `i32` counts has no later one.
const LAST_OFFSET: usize = 0x7fff_ffff;

impl<'a> Locator<'a> {
    /// No locations yet of a source whose lines are these. Takes no memory.
    pub fn new(alloc: Global, source: &'a str, lines: &'a LineResolver) -> Locator<'a>
        ensures { spec.state result ≡ spec.start source.now (feeds lines.now) }
    {
        Locator {
            alloc,
            source: source.as_bytes(),
            lines,
            locations: Vec::new(alloc),
            gap_start: 0,
            front: Front::Nothing,
        }
    }

    /// The path of the entry of a list in the record at a path.
    pub fn entry(&self, path: &[i32], tag: i32, place: i32) -> Result<Vec<i32>, AllocError>
        ensures { IfOk result (λ at. at.items ≡ path.now ++ tag ∷ place ∷ []) }
    {
        join_path(self.alloc, path, &[tag, place])
    }

    /// The location of what `tail` leads to from the record at `path`, without comments.
    fn location(&self, path: &[i32], tail: &[i32], span: Span) -> Result<Location, AllocError>
        ensures { IfOk result (λ made. location_view made
            ≡ located.location (feeds self.now.lines.now) path.now tail.now span) }
    {
        let span = Span {
            start: span.start.min(LAST_OFFSET),
            end: span.end.min(LAST_OFFSET),
        };
        Ok(Location {
            path: join_path(self.alloc, path, tail)?,
            span: self.lines.resolve_span(self.alloc, span)?,
            leading_comments: None,
            trailing_comments: None,
            leading_detached_comments: Vec::new(self.alloc),
        })
    }

    /// Adds the location of a part that has no comments: what `tail` leads to from the record at
    /// `path`.
    pub fn add(&mut self, path: &[i32], tail: &[i32], span: Span) -> Result<(), AllocError>
        ensures { OnOk result (spec.state self.new
            ≡ spec.meet (spec.state self.old) (located.part path.now tail.now span)) }
    {
        let location = self.location(path, tail, span)?;
        self.locations.push(location)?;
        Ok(())
    }

    /// Adds the location of a part that may be left out.
    pub fn add_some(
        &mut self,
        path: &[i32],
        tail: &[i32],
        span: Option<Span>,
    ) -> Result<(), AllocError>
        ensures { OnOk result (spec.state self.new
            ≡ spec.meets (spec.state self.old) (part_if path.now tail.now span)) }
    {
        match span {
            Some(span) => self.add(path, tail, span),
            None => Ok(()),
        }
    }

    /// Adds the location of a statement whose semicolon or opening brace ends at `end`, with the
    /// comments in front of it.
    fn begin(
        &mut self,
        path: &[i32],
        tail: &[i32],
        span: Span,
        end: usize,
    ) -> Result<(), AllocError>
        ensures { OnOk result (spec.state self.new
            ≡ spec.meet (spec.state self.old) (located.statement path.now tail.now span end)) }
    {
        let (detached, leading) = self.read_gap(span.start, Behind::Statement)?;
        let mut location = self.location(path, tail, span)?;
        location.leading_detached_comments = detached;
        location.leading_comments = leading;
        let place = self.locations.len();
        self.locations.push(location)?;
        self.gap_start = end;
        self.front = Front::Statement(place);
        Ok(())
    }

    /// Adds the location of a statement that ends with a semicolon.
    pub fn statement(&mut self, path: &[i32], tail: &[i32], span: Span) -> Result<(), AllocError>
        ensures { OnOk result (spec.state self.new
            ≡ spec.meet (spec.state self.old) (located.statement path.now tail.now span span.end)) }
    {
        self.begin(path, tail, span, span.end)
    }

    /// Adds the location of a statement with braces. What stands in these comes next.
    pub fn enter(
        &mut self,
        path: &[i32],
        tail: &[i32],
        span: Span,
        braces: Span,
    ) -> Result<(), AllocError>
        ensures { OnOk result (spec.state self.new
            ≡ spec.meet (spec.state self.old)
            (located.statement path.now tail.now span (located.inside braces))) }
    {
        self.begin(path, tail, span, braces.start.min(LAST_OFFSET) + 1)
    }

    /// What stands in the braces was met.
    pub fn leave(&mut self, braces: Span) -> Result<(), AllocError>
        ensures { OnOk result (spec.state self.new
            ≡ spec.meet (spec.state self.old) (located.closing braces)) }
    {
        self.read_gap(braces.end.saturating_sub(1), Behind::Brace)?;
        self.gap_start = braces.end;
        Ok(())
    }

    /// An empty statement has no location, and comments in front of it and behind it are no
    /// statement's.
    pub fn pass(&mut self, empty: Span) -> Result<(), AllocError>
        ensures { OnOk result (spec.state self.new
            ≡ spec.meet (spec.state self.old) (located.empty empty)) }
    {
        self.read_gap(empty.start, Behind::Statement)?;
        self.gap_start = empty.end;
        self.front = Front::Empty;
        Ok(())
    }

    /// Gives the statement in front of the gap that ends here its trailing comment; the answer is
    /// the comments that belong to what stands behind.
    fn read_gap(
        &mut self,
        end: usize,
        behind: Behind,
    ) -> Result<(Vec<String>, Option<String>), AllocError>
        ensures read { OnOk result (spec.state self.new
            ≡ spec.behind_gap (spec.state self.old) end behind) }
        ensures detached { IfOk result
            (λ left. texts_view left.0 ≡ (spec.notes_before (spec.state self.old) end
            behind).detached) }
        ensures leading { IfOk result (λ left. text_view left.1
            ≡ (spec.notes_before (spec.state self.old) end behind).leading) }
    {
        let may_trail = !matches!(self.front, Front::Nothing);
        let bytes = gap(self.source, self.gap_start, end);
        let GapComments {
            trailing,
            detached,
            leading,
        } = gap_comments(self.alloc, bytes, may_trail, behind)?;
        if let Front::Statement(place) = self.front {
            self.trail(place, trailing);
        }
        self.front = Front::Nothing;
        Ok((detached, leading))
    }

    /// Gives the location at a place this trailing comment.
    fn trail(&mut self, place: usize, comment: Option<String>)
        ensures { spec.state self.new ≡ record (spec.state self.old) {
          locations = spec.trailed_at place (text_view comment)
              (spec.state self.old).locations;
        } }
    {
        if let Some(location) = self.locations.get_mut(place) {
            location.trailing_comments = comment;
        }
    }

    /// All locations, by path, those of one path in source order.
    pub fn finish(mut self) -> Result<Vec<Location>, AllocError>
        ensures { let old = spec.state self.entry in
            IfOk result (λ made. AreByPath (spec.behind_gap old (length old.source) End).locations
            (map location_view made.items)) }
    {
        let end = self.source.len();
        self.read_gap(end, Behind::End)?;
        let mut locations = self.locations;
        locations.sort_by(|a, b| a.path.cmp(&b.path))?;
        Ok(locations)
    }
}

/// The bytes between two places, or none where these are no places of the text, or not in this
/// order.
fn gap(source: &[u8], from: usize, to: usize) -> &[u8]
    ensures { result.now ≡ located.between source.now from to }
{
    source.get(from..to).unwrap_or(&[])
}
