// A file that was read, with its index.
ghost use Rattle.file.specs.Tables.{Indexed};
ghost use Rattle.file.proofs.Props.{Indexed-prop};

// The bytes of a file that the reader accepts, and the index that finds its records. Numbers of its types and nodes stay plain, with a
// clause where they have to be in range: the bound is the file's, and a number's own type cannot name it. So do facts that tie a slot, a
// path or a constant to a file.
#[derive(Clone, Copy)]
pub struct IndexedFile<'a> {
    pub bytes: &'a [u8],
    pub index: &'a [u16],
    pub ghost indexed: { Indexed bytes.now index.now } by { Indexed-prop bytes.now index.now },
}
