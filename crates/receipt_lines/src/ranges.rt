//! The length that the type of a tag gives to it. This function does nothing: its contract is the fact.
ghost use Rattle.std.specs.Prelude.{◌≡◌, length};

use receipts::TAG_LEN;

/// A tag has its length.
pub(crate) fn tags_have_their_length(tag: &[u8; TAG_LEN])
    ensures len { length tag.now ≡ TAG_LEN }
{}
