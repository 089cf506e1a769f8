// The flash copied.

ghost use Rattle.std.specs.Prelude.{◌≡◌, length};
ghost use Rattle.record.specs.Flash.{flash};

// A flash copied to another of its size.
pub fn copy_flash(from_words: &[u32], from_contents: &[u8], words: &mut [u32], contents: &mut [u8])
    requires words_len { length words.old ≡ length from_words.now }
    requires contents_len { length contents.old ≡ length from_contents.now }
    ensures { flash words.new contents.new ≡ flash from_words.now from_contents.now }
{
    words.copy_from_slice(from_words);
    contents.copy_from_slice(from_contents);
}
