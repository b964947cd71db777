//! The head of a record.
ghost use Rattle.std.specs.Prelude.{◌≡◌, IfOk, drop};
ghost use Rattle.rio_key.specs.Key.{is_compressed};

use rio_num::{Name, NoMemory, bytes_from};

/// Where the first record of a file stands, which is that of its top directory.
pub const FIRST_PLACE: u64 = 100;

/// The head of a record.
#[derive(Debug, PartialEq, Drop)]
pub struct KeyHead {
    /// The length of the record in bytes, its key and its data. A gap has a negative one.
    pub nbytes: i32,
    /// Above 1000 the two places take 8 bytes each, else 4.
    pub version: u16,
    /// The length in bytes of the data when they are not compressed.
    pub objlen: u32,
    pub datime: u32,
    /// The length of the key in bytes.
    pub keylen: u16,
    pub cycle: u16,
    /// The place of the record.
    pub seek: u64,
    /// The place of the directory that the record is in.
    pub pdir: u64,
    pub class: Name,
    pub name: Name,
    pub title: Name,
}

impl KeyHead {
    /// Whether the record has fewer bytes of data than the data are long.
    pub fn is_compressed(&self) -> bool
        ensures { result ≡ is_compressed self.now }
    {
        i64::from(self.objlen) > i64::from(self.nbytes) - i64::from(self.keylen)
    }

    /// The data of the record that has these bytes: they begin behind the key. There are none where
    /// the bytes end before.
    pub fn data_of<'a>(&self, bytes: &'a [u8]) -> &'a [u8]
        ensures { result.now ≡ drop self.now.keylen bytes.now }
    {
        bytes_from(bytes, usize::from(self.keylen))
    }

    /// An equal head.
    pub fn copy(&self) -> Result<KeyHead, NoMemory>
        ensures { IfOk result (λ head. head ≡ self.now) }
    {
        Ok(KeyHead {
            nbytes: self.nbytes,
            version: self.version,
            objlen: self.objlen,
            datime: self.datime,
            keylen: self.keylen,
            cycle: self.cycle,
            seek: self.seek,
            pdir: self.pdir,
            class: self.class.copy()?,
            name: self.name.copy()?,
            title: self.title.copy()?,
        })
    }
}
