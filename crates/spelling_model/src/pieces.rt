//! The fixed pieces of the canonical bytes of a document, and the characters that are escaped in them.

/// The declaration with its line feed, and the root's tag up to its mimetype.
pub const ROOT: &str =
    "<?xml version=\"1.0\" encoding=\"UTF-8\"?>\n<office:document xmlns:office=\"urn:oasis:names:tc:opendocument:xmlns:office:1.0\" xmlns:style=\"urn:oasis:names:tc:opendocument:xmlns:style:1.0\" xmlns:text=\"urn:oasis:names:tc:opendocument:xmlns:text:1.0\" xmlns:table=\"urn:oasis:names:tc:opendocument:xmlns:table:1.0\" xmlns:fo=\"urn:oasis:names:tc:opendocument:xmlns:xsl-fo-compatible:1.0\" xmlns:xlink=\"http://www.w3.org/1999/xlink\" office:version=\"1.3\" office:mimetype=\"application/vnd.oasis.opendocument.text";

/// The end of the root's tag.
pub const ROOT_END: &str = "\">";

/// The body's and the text's start tags.
pub const BODY: &str = "<office:body><office:text>";

/// The end tags of the text, the body and the root, with a line feed.
pub const TAIL: &str = "</office:text></office:body></office:document>\n";

/// A paragraph without items.
pub const EMPTY_PARAGRAPH: &str = "<text:p/>";

/// The start tag of a paragraph.
pub const PARAGRAPH: &str = "<text:p>";

/// The end tag of a paragraph.
pub const PARAGRAPH_END: &str = "</text:p>";

/// One space that can't stand for itself.
pub const SPACE: &str = "<text:s/>";

/// Several such spaces: their number follows.
pub const SPACES: &str = "<text:s text:c=\"";

/// What follows the number of spaces.
pub const SPACES_END: &str = "\"/>";
