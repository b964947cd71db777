//! Laws of headers and directory records.
ghost use Rattle.rio_num.specs.Laws.{Agrees};
ghost use Rattle.rio_head.specs.Dir.{dir_layout};
ghost use Rattle.rio_head.specs.Head.{header_layout};
ghost use Rattle.rio_head.specs.Laws.{DirInFront, HeadInFront, OneDir, OneHead};
ghost use Rattle.rio_head.specs.Written.{WrittenDirIsRead, WrittenHeadIsRead};

/// What is spelled is read, what breaks gives the fault, what is read is spelled, and what fails is broken: so it is with
/// headers and with directory records.
pub fn meanings_agree()
    ensures header { Agrees header_layout }
    ensures dir { Agrees dir_layout }
{}

/// A header is read from the first 100 bytes of a file alone.
pub fn header_in_front()
    ensures { HeadInFront }
{}

/// A directory record is read from its first 60 bytes alone.
pub fn dir_in_front()
    ensures { DirInFront }
{}

/// One header is spelled at the beginning of some bytes.
pub fn one_head()
    ensures { OneHead }
{}

/// One directory record is spelled at the beginning of some bytes.
pub fn one_dir()
    ensures { OneDir }
{}

/// What is written of a header is read as it, where its places fit its form and it says where they begin.
pub fn written_head_is_read()
    ensures { WrittenHeadIsRead }
{}

/// What is written of a directory record is read as it, where its places fit its form.
pub fn written_dir_is_read()
    ensures { WrittenDirIsRead }
{}
