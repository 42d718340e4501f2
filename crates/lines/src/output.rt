// Bytes that texts are put into from their front on.
ghost use Rattle.std.specs.Prelude.{◌≡◌, ◌≤◌, length};

// The bytes lent, and the place of the next text. std's `Cursor` puts what of a text still fits; here none of it is put.
#[derive(Drop)]
pub struct Output<'a> {
    pub(crate) bytes: &'a mut [u8],
    pub(crate) at: usize,
    pub ghost within: { at ≤ length bytes.now },
}

impl<'a> Output<'a> {
    // An output that nothing was put into yet.
    pub fn new(bytes: &'a mut [u8]) -> Output<'a>
        ensures same { result.bytes.ghost_name ≡ bytes.entry.ghost_name }
        ensures lent { result.bytes.now ≡ bytes.old }
        ensures front { result.at ≡ 0 }
    {
        Output { bytes, at: 0 }
    }

    // The place of the next text: how many bytes were put, where it was not moved.
    pub fn len(&self) -> usize
        ensures { result ≡ self.now.at }
    {
        self.at
    }
}
