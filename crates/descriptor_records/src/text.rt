ghost use Rattle.std.specs.Prelude.{◌≡◌};
ghost use Rattle.descriptor_records.specs.Content.{text_of as content_of};

/// The text of a record's field, empty where it is missing.
#[inline]
pub fn text_of(text: &Option<String>) -> &str
    ensures { result.now ≡ content_of text.now }
{
    match text {
        Some(text) => text.as_str(),
        None => "",
    }
}
