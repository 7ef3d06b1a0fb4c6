// An image that instructions are written into, one after another.
ghost use Rattle.std.specs.Prelude.{◌≡◌, length};
ghost use Rattle.words.specs.Words.{memory_size};

#[derive(Drop)]
pub(crate) struct Writer<'a> {
    pub(crate) image: &'a mut [u16],
    // The place of the next word.
    pub(crate) at: usize,
    ghost whole: { length image.now ≡ memory_size },
}
