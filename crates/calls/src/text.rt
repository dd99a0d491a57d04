// Texts in blocks of sixteen bytes. A block is looked at whole, so that its bytes are tested at once.
ghost use Rattle.std.specs.Prelude.{◌≡◌};
ghost use Rattle.std.specs.List.{list_all};
ghost use Rattle.octets.specs.Classes.{is_visible};
ghost use Rattle.octets.specs.Members.{members};
ghost use Rattle.octets.specs.Scans.{all};

use octets::Class;

// Every byte of the block is visible.
fn is_visible_block(block: &[u8; 16]) -> bool
    ensures { result ≡ all is_visible block.now }
{
    let mut visible = true;
    for b in block {
        visible &= b.is_ascii_graphic();
    }
    visible
}

// So is every byte of all these blocks. Without a stop at the first that fails: with `all` a table full of the longest pairs took 37,672
// instructions in place of 36,616.
fn are_visible_blocks(blocks: &[[u8; 16]]) -> bool
    ensures { result ≡ list_all (all is_visible) blocks.now }
{
    let mut visible = true;
    for block in blocks {
        visible &= is_visible_block(block);
    }
    visible
}

// Every byte is visible. The last block may share bytes with the one before it. A short text is left to the class table.
pub(crate) fn is_visible(s: &[u8]) -> bool
    ensures { result ≡ all is_visible s.now }
{
    let (blocks, rest) = s.as_chunks::<16>();
    match s.last_chunk::<16>() {
        Some(last) => are_visible_blocks(blocks) && (rest.is_empty() || is_visible_block(last)),
        None => is_all(Class::Visible, s),
    }
}

// Every byte is in the class.
pub(crate) fn is_all(class: Class, s: &[u8]) -> bool
    ensures { result ≡ all (members class) s.now }
{
    class.run(s) == s.len()
}
